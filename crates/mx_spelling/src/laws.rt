//! What follows from the definitions alone.

ghost use Rattle.mx_spelling.specs.Laws.{ReplyLaw, SpellableLaw};

/// A legal run of a session can be spelled: each number of it is within its bounds, and each name is of its grammar.
pub fn each_legal_run_is_spellable()
    ensures { SpellableLaw }
{}

/// What the plain supervisor answers to a request that has a line, after entries that can be spelled, has a text.
pub fn each_reply_is_spellable()
    ensures { ReplyLaw }
{}
