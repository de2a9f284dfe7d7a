//! The text of a judgement.

ghost use Rattle.std.specs.Prelude.{◌≡◌, ◌++◌, ◌≤◌, codes, OnErr, OnOk};
ghost use Rattle.std.specs.Fmt.{decimal};
ghost use Rattle.mx_check.specs.Judgements.{bad_line_text, breach_text, judgement_text};
ghost use Rattle.mx_io.specs.Bytes.{Appends, AppendsPart};
ghost use Rattle.mx_io.specs.Faults.{Rose};

use crate::judgements::Judgement;
use itoa::Buffer;
use mx_io::{Sink, WriteFault, write_all};
use mx_legal::Breach;

impl Judgement {
    /// Writes the text of this judgement. Takes no memory. On a fault the front of the text was written, and not all of it.
    pub fn tell<K: Sink>(&self, sink: &mut K) -> Result<(), WriteFault>
        ensures all { OnOk result (Appends (K.out sink.old) (K.out sink.new) (judgement_text self.now)) }
        ensures part { OnErr result (AppendsPart (K.out sink.old) (K.out sink.new) (judgement_text self.now)) }
        ensures cause { OnErr result (Rose (K.faults sink.old) (K.faults sink.new)) }
        ensures only { OnOk result (K.faults sink.new ≡ K.faults sink.old) }
    {
        match self {
            Judgement::Legal => write_all(sink, b"legal\n"),
            Judgement::Breach(breach) => tell_breach(breach, sink),
            Judgement::BadLine(number) => tell_bad_line(*number, sink),
            Judgement::TooLong => write_all(sink, b"too long\n"),
        }
    }
}

// Writes whose the breach is, and at which line.
fn tell_breach<K: Sink>(breach: &Breach, sink: &mut K) -> Result<(), WriteFault>
    ensures all { OnOk result (Appends (K.out sink.old) (K.out sink.new) (breach_text breach.now.process breach.now.line)) }
    ensures part { OnErr result (AppendsPart (K.out sink.old) (K.out sink.new) (breach_text breach.now.process breach.now.line)) }
    ensures cause { OnErr result (Rose (K.faults sink.old) (K.faults sink.new)) }
    ensures only { OnOk result (K.faults sink.new ≡ K.faults sink.old) }
{
    write_numbered(sink, b"breach ", breach.process as u64)?;
    write_numbered(sink, b" ", breach.line as u64)?;
    write_all(sink, b"\n")
}

// Writes the number of a bad line.
fn tell_bad_line<K: Sink>(number: u32, sink: &mut K) -> Result<(), WriteFault>
    ensures all { OnOk result (Appends (K.out sink.old) (K.out sink.new) (bad_line_text number)) }
    ensures part { OnErr result (AppendsPart (K.out sink.old) (K.out sink.new) (bad_line_text number)) }
    ensures cause { OnErr result (Rose (K.faults sink.old) (K.faults sink.new)) }
    ensures only { OnOk result (K.faults sink.new ≡ K.faults sink.old) }
{
    write_numbered(sink, b"bad line ", number as u64)?;
    write_all(sink, b"\n")
}

// Writes words, and then a number.
fn write_numbered<K: Sink>(sink: &mut K, words: &[u8], number: u64) -> Result<(), WriteFault>
    ensures all { OnOk result (Appends (K.out sink.old) (K.out sink.new) (words.now ++ decimal number)) }
    ensures part { OnErr result (AppendsPart (K.out sink.old) (K.out sink.new) (words.now ++ decimal number)) }
    ensures cause { OnErr result (Rose (K.faults sink.old) (K.faults sink.new)) }
    ensures only { OnOk result (K.faults sink.new ≡ K.faults sink.old) }
{
    let mut buffer = Buffer::new();
    write_all(sink, words)?;
    write_all(sink, buffer.format(number).as_bytes())
}
