//! What follows from the definitions alone.

ghost use Rattle.std.specs.Prelude.{◌≡◌, ℕ, ◌≤◌, ◌↔◌, List, [], ◌∷◌, ◌++◌, length, true, false, Some, Ok, Err};
ghost use Rattle.mx_mail.specs.Processes.{PlainProcess, AreProcesses, end_process, process_at};
ghost use Rattle.mx_mail.specs.Sending.{send_message};
ghost use Rattle.mx_mail.specs.Sleeping.{AreOthersAsleep, IsAnotherAwake};
ghost use Rattle.mx_mail.specs.Taking.{messages_of, take_message, is_ready};

use crate::mail::{MailError, Taken};
use crate::processes::ExecutionState;

/// A message that is sent waits behind the others. Its receiver goes on as it did, and no other process changes. Where
/// none waited, it is the next one taken.
pub fn a_message_waits_behind_the_others()
    ensures behind { (before after : List PlainProcess) (sender to word : ℕ)
        → send_message before sender to word ≡ Ok after
        → messages_of after to ≡ messages_of before to ++ (sender, word) ∷ [] }
    ensures receiver { (before after : List PlainProcess) (sender to word : ℕ) (old new : PlainProcess)
        → send_message before sender to word ≡ Ok after
        → process_at before to ≡ Some old → process_at after to ≡ Some new
        → new.state ≡ old.state }
    ensures others { (before after : List PlainProcess) (sender to word q : ℕ)
        → send_message before sender to word ≡ Ok after
        → (q ≡ to → ⊥) → process_at after q ≡ process_at before q }
    ensures alone { (before after : List PlainProcess) (sender to word : ℕ)
        → send_message before sender to word ≡ Ok after
        → messages_of before to ≡ [] → (take_message after to).taken ≡ Taken.Message sender word }
{}

/// A message is refused for want of the process exactly where no process has the number, else exactly where the process
/// has ended, else exactly where 64 messages wait for it.
pub fn a_message_is_refused_in_order()
    ensures no_process { (processes : List PlainProcess) (sender to word : ℕ)
        → (send_message processes sender to word ≡ Err MailError.NoProcess) ↔ ((1 ≤ to) × (to ≤ length processes) → ⊥) }
    ensures ended { (processes : List PlainProcess) (sender to word : ℕ) (process : PlainProcess)
        → process_at processes to ≡ Some process
        → (send_message processes sender to word ≡ Err MailError.Ended) ↔ (process.state ≡ ExecutionState.Ended) }
    ensures full { (processes : List PlainProcess) (sender to word : ℕ) (process : PlainProcess)
        → AreProcesses processes
        → process_at processes to ≡ Some process
        → (send_message processes sender to word ≡ Err MailError.Full) ↔ (length process.messages ≡ 64) }
{}

/// The oldest message is taken, and those behind it wait on. No other process changes, whatever the answer.
pub fn the_oldest_message_is_taken()
    ensures oldest { (processes : List PlainProcess) (p sender word : ℕ) (later : List (ℕ × ℕ))
        → messages_of processes p ≡ (sender, word) ∷ later
        → ((take_message processes p).taken ≡ Taken.Message sender word)
        × (messages_of (take_message processes p).processes p ≡ later) }
    ensures others { (processes : List PlainProcess) (p q : ℕ) → (q ≡ p → ⊥)
        → process_at (take_message processes p).processes q ≡ process_at processes q }
{}

/// A process that ends drops the messages that waited for it, and no other process changes.
pub fn an_end_drops_what_waits()
    ensures own { (processes : List PlainProcess) (p : ℕ) (process : PlainProcess)
        → process_at (end_process processes p) p ≡ Some process
        → (process.state ≡ ExecutionState.Ended) × (process.messages ≡ []) }
    ensures others { (processes : List PlainProcess) (p q : ℕ) → (q ≡ p → ⊥)
        → process_at (end_process processes p) q ≡ process_at processes q }
{}

/// `Nobody` is answered exactly where no message waits for the process, and each other process has ended, or waits and
/// has no message.
pub fn nobody_where_the_others_are_asleep()
    ensures { (processes : List PlainProcess) (p : ℕ) → 1 ≤ p
        → ((take_message processes p).taken ≡ Taken.Nobody)
        ↔ ((messages_of processes p ≡ []) × AreOthersAsleep processes p) }
{}

/// A process that is not ready waits for another that runs, or that waits and has a message.
pub fn one_that_is_not_ready_waits_for_another()
    ensures { (processes : List PlainProcess) (p : ℕ) → 1 ≤ p → is_ready processes p ≡ false
        → IsAnotherAwake processes p }
{}

/// Where a process waits and none runs, one that waits is ready.
pub fn one_that_waits_is_ready()
    ensures { (processes : List PlainProcess) (p : ℕ) (waiting : PlainProcess) → process_at processes p ≡ Some waiting
        → waiting.state ≡ ExecutionState.Waiting
        → ((q : ℕ) (other : PlainProcess) → process_at processes q ≡ Some other
        → other.state ≡ ExecutionState.Running → ⊥)
        → (q : ℕ) × (other : PlainProcess) × (process_at processes q ≡ Some other)
        × (other.state ≡ ExecutionState.Waiting) × (is_ready processes q ≡ true) }
{}
