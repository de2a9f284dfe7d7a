//! Entries of the journal by their numbers.

ghost use Rattle.std.specs.Prelude.{◌≡◌};
ghost use Rattle.std.specs.Option.{option_map};
ghost use Rattle.mx_transcript.specs.Settings.{entry_at};

use mx_state::{Entry, Journal};

/// The entry of this number, counted from 1; `None` where the journal has none of it. Takes no memory.
pub fn entry_at(journal: &Journal, number: u32) -> Option<&Entry>
    ensures { option_map (λ entry. entry.now) result ≡ entry_at journal.now number }
{
    if number == 0 {
        None
    } else {
        journal.items().get(number as usize - 1)
    }
}
