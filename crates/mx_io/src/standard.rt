ghost use Rattle.std.specs.Prelude.{◌≡◌, ◌≢◌, ℕ, ◌<◌, ◌≤◌, length, IfOk, IfErr, None, Some};
ghost use Rattle.std.specs.Io.KnownBytes as known;
ghost use Rattle.std.specs.IoError.{error_kind};
ghost use Rattle.mx_io.specs.Bytes.{Takes, IsAtEnd, Appends};
ghost use Rattle.mx_io.specs.Faults.{Rose};
ghost use Rattle.mx_io.specs.Reading.{IsWithinRoom, given};
ghost use Rattle.mx_io.specs.Writing.{IsWithinOffer, taken};

use crate::{Got, Put, Sink, Source};
use std::io::{self, ErrorKind, Read, Write};
use std::marker::Model;

/// A reader of std as a source. It tells no bytes of its own: which bytes come, only the reader's contract says. Each
/// error but an interruption is a fault; an interrupted read is made again, as std's `read_to_end` does. The count of
/// faults has 64 bits and stops at the last number.
#[derive(Drop)]
pub struct StdSource<R: Read + Drop> {
    reader: R,
    faults: u64,
}

impl<R: Read + Drop> Model for StdSource<R> {
    ghost use Rattle.mx_io.specs.Standard.{StdEnd};

    ghost Value = { StdEnd R };

    ghost view = { λ a. record { inner = a.reader; faults = a.faults } };
}

impl<R: Read + Drop> StdSource<R> {
    /// A source over this reader, as `rt.stdin()`, that has had no fault.
    pub fn new(reader: R) -> StdSource<R>
        ensures inner { result.inner ≡ reader }
        ensures faults { result.faults ≡ 0 }
    {
        StdSource { reader, faults: 0 }
    }
}

/// What a read of std came to, `None` where it was interrupted and is to be made again.
fn got_by(read: io::Result<usize>) -> Option<Got>
    ensures bytes { IfOk read (λ count. 1 ≤ count → result ≡ Some (Got.Bytes count)) }
    ensures end { IfOk read (λ count. count ≡ 0 → result ≡ Some Got.End) }
    ensures again { IfErr read (λ error. error_kind error ≡ ErrorKind.Interrupted → result ≡ None) }
    ensures failed { IfErr read (λ error. error_kind error ≢ ErrorKind.Interrupted → result ≡ Some Got.Fault) }
{
    match read {
        Ok(0) => Some(Got::End),
        Ok(count) => Some(Got::Bytes(count)),
        Err(error) if error.kind() == ErrorKind::Interrupted => None,
        Err(_) => Some(Got::Fault),
    }
}

/// One read, made again while it is interrupted.
#[tactic(auto, using(crate::proofs::KnownBytes::known_bytes))]
fn read_once<R: Read>(reader: &mut R, buf: &mut [u8]) -> Got
    requires { 0 < length buf.old }
    ensures count { IsWithinRoom (length buf.old) result }
    ensures known { known.Consumes (R.remaining reader.old) (R.remaining reader.new) (given result buf.new) }
    ensures known_end { result ≡ Got.End → known.IsAtEnd (R.remaining reader.new) }
{
    for _ in 0..u64::MAX {
        if let Some(got) = got_by(reader.read(buf)) {
            return got;
        }
    }
    Got::Fault
}

impl<R: Read + Drop> Source for StdSource<R> {
    ghost left = { λ _. None };

    ghost faults = { λ source. source.faults };

    fn read(&mut self, buf: &mut [u8]) -> Got
        requires { 0 < length buf.old }
        ensures count { IsWithinRoom (length buf.old) result }
        ensures bytes { Takes None None (given result buf.new) }
        ensures end { result ≡ Got.End → IsAtEnd None }
        ensures cause { result ≡ Got.Fault → Rose self.old.faults self.new.faults }
        ensures only { result ≢ Got.Fault → self.new.faults ≡ self.old.faults }
        ensures later { self.old.faults ≤ self.new.faults }
        ensures known { known.Consumes (R.remaining self.old.inner) (R.remaining self.new.inner)
            (given result buf.new) }
        ensures known_end { result ≡ Got.End → known.IsAtEnd (R.remaining self.new.inner) }
    {
        let got = read_once(&mut self.reader, buf);
        if got == Got::Fault {
            self.faults = self.faults.saturating_add(1);
        }
        got
    }
}

/// A writer of std as a sink. It tells no bytes of its own: what was written, only the writer's contract says. Each
/// error but an interruption is a fault, and so is a write that takes nothing; an interrupted write is made again, as
/// std's
/// `write_all` does. The count of faults has 64 bits and stops at the last number.
#[derive(Drop)]
pub struct StdSink<W: Write + Drop> {
    writer: W,
    faults: u64,
}

impl<W: Write + Drop> Model for StdSink<W> {
    ghost use Rattle.mx_io.specs.Standard.{StdEnd};

    ghost Value = { StdEnd W };

    ghost view = { λ a. record { inner = a.writer; faults = a.faults } };
}

impl<W: Write + Drop> StdSink<W> {
    /// A sink over this writer, as `rt.stdout()`, that has had no fault.
    pub fn new(writer: W) -> StdSink<W>
        ensures inner { result.inner ≡ writer }
        ensures faults { result.faults ≡ 0 }
    {
        StdSink { writer, faults: 0 }
    }
}

/// What a write of std came to, `None` where it was interrupted and is to be made again.
fn put_by(written: io::Result<usize>) -> Option<Put>
    ensures bytes { IfOk written (λ count. 1 ≤ count → result ≡ Some (Put.Bytes count)) }
    ensures nothing { IfOk written (λ count. count ≡ 0 → result ≡ Some Put.Fault) }
    ensures again { IfErr written (λ error. error_kind error ≡ ErrorKind.Interrupted → result ≡ None) }
    ensures failed { IfErr written (λ error. error_kind error ≢ ErrorKind.Interrupted → result ≡ Some Put.Fault) }
{
    match written {
        Ok(0) => Some(Put::Fault),
        Ok(count) => Some(Put::Bytes(count)),
        Err(error) if error.kind() == ErrorKind::Interrupted => None,
        Err(_) => Some(Put::Fault),
    }
}

/// One write, made again while it is interrupted.
#[tactic(auto, using(crate::proofs::KnownBytes::known_bytes))]
fn write_once<W: Write>(writer: &mut W, bytes: &[u8]) -> Put
    ensures count { IsWithinOffer (length bytes.now) result }
    ensures known { known.Appends (W.contents writer.old) (W.contents writer.new) (taken result bytes.now) }
{
    for _ in 0..u64::MAX {
        if let Some(put) = put_by(writer.write(bytes)) {
            return put;
        }
    }
    Put::Fault
}

impl<W: Write + Drop> Sink for StdSink<W> {
    ghost out = { λ _. None };

    ghost faults = { λ sink. sink.faults };

    fn write(&mut self, bytes: &[u8]) -> Put
        requires { 0 < length bytes.now }
        ensures count { IsWithinOffer (length bytes.now) result }
        ensures bytes { Appends None None (taken result bytes.now) }
        ensures cause { result ≡ Put.Fault → Rose self.old.faults self.new.faults }
        ensures only { result ≢ Put.Fault → self.new.faults ≡ self.old.faults }
        ensures later { self.old.faults ≤ self.new.faults }
        ensures known { known.Appends (W.contents self.old.inner) (W.contents self.new.inner) (taken result bytes.now) }
    {
        let put = write_once(&mut self.writer, bytes);
        if put == Put::Fault {
            self.faults = self.faults.saturating_add(1);
        }
        put
    }
}
