//! The opening of the shared words of a session, from its supervisor.

ghost use Rattle.std.specs.Prelude.{◌≡◌, ◌≤◌, ◌<◌, ◌++◌, ℕ, IfOk, OnOk, length};
ghost use Rattle.mx_closing.specs.Keeping.{KeepsJournal};
ghost use Rattle.mx_closing.specs.Opening.{known_row, layout_of};
ghost use Rattle.mx_rule.specs.Dealing.{opening_view};
ghost use Rattle.mx_rule.specs.Openings.{MayOpen};
ghost use Rattle.mx_rule.specs.Shown.{base_of};
ghost use Rattle.mx_sdw.specs.Admissible.{IsAdmissible};
ghost use Rattle.mx_state.specs.Table.{descriptor};
ghost use Rattle.mx_sup.specs.Supervised.{state_of};
ghost use Rattle.mx_transcript.specs.Access.{descriptor_at};
ghost use Rattle.mx_transcript.specs.Legal.{setup_entries};

use mx_core::{Change, Changes};
use mx_request::last_number;
use mx_rule::{Key, Layout};
use mx_script::Session;
use mx_sdw::Desc;
use mx_sup::Supervisor;
use std::alloc::{AllocError, Global};

/// Which word is which for the processes of a session: each has a descriptor word for each number up to the last of the
/// version.
pub fn layout_of(session: &Session) -> Layout
    ensures layout { result ≡ layout_of session.now }
    ensures some { 1 ≤ result.processes }
    ensures most { result.processes ≤ 15 }
{
    let principals = session.principals().items();
    Layout {
        processes: principals.len() as u8,
        numbers: last_number(session.version()) + 1,
    }
}

/// With what the shared words of a session open after all that its supervisor has entered: each process has of each
/// number the descriptor that the plain supervisor gives it now. Where that is the setup, the supervisor's seat then keeps
/// the journal. The only error is want of memory; it takes none but that of the descriptors, of those numbers alone that
/// stand for something.
pub fn opening_key(
    alloc: Global,
    session: &Session,
    supervisor: &Supervisor,
) -> Result<Key, AllocError>
    requires { supervisor.now.session ≡ session.now }
    ensures layout { IfOk result (λ key. key.layout ≡ layout_of session.now) }
    ensures start { IfOk result (λ key. key.start ≡ length supervisor.now.journal) }
    ensures may { IfOk result (λ key. MayOpen key.layout key.start key.base) }
    ensures table { IfOk result (λ key. (p n : ℕ) → 1 ≤ p → p ≤ length session.now.principals → base_of key.base p n
        ≡ descriptor_at session.now supervisor.now.journal (length supervisor.now.journal) p n) }
    ensures keeps { IfOk result (λ key. length supervisor.now.journal ≡ setup_entries session.now → (next : ℕ)
        → KeepsJournal session.now supervisor.now.journal
        (record (opening_view key.layout.processes key.layout.numbers key.start key.base) { next = next })) }
{
    let layout = layout_of(session);
    let start = supervisor.length();
    let _limit = session.limit();
    let mut base = Changes::new(alloc);
    for i in 0..layout.processes {
        add_known(&mut base, supervisor, i + 1, layout.numbers)?;
    }
    Ok(Key {
        layout,
        start,
        base,
    })
}

// Adds the descriptors of a process that are not unknown, of the numbers below this.
fn add_known(
    base: &mut Changes,
    supervisor: &Supervisor,
    p: u8,
    numbers: u16,
) -> Result<(), AllocError>
    requires some { 1 ≤ p }
    requires process { p ≤ length supervisor.now.session.principals }
    ensures known { OnOk result (base.new ≡ base.old ++ known_row p (descriptor (state_of supervisor.now) p) numbers) }
    ensures admissible { OnOk result ((n : ℕ) → n < numbers
        → IsAdmissible (descriptor (state_of supervisor.now) p n)) }
{
    let unknown = Desc::unknown();
    for segno in 0..numbers {
        let desc = supervisor.descriptor(p, segno);
        if !desc.is_same(&unknown) {
            base.push(Change {
                process: p,
                segno,
                desc,
            })?;
        }
    }
    Ok(())
}
