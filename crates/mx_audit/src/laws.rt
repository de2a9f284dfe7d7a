//! What follows from the definitions alone.

ghost use Rattle.std.specs.Prelude.{◌≡◌, ℕ, ◌≤◌, List, ◌++◌, length};
ghost use Rattle.std.specs.List.{All};
ghost use Rattle.mx_audit.specs.Accounts.{Account, Told, with_told, with_all, HaveGrown, HaveRoomFor, HaveRoom};

/// An auditor that is told of some denials and then of others was told of all in that order.
pub fn denials_add_up()
    ensures { (account : Account) (denials others : List Told)
        → with_told (with_told account denials) others ≡ with_told account (denials ++ others) }
{}

/// Auditors that are told of nothing have grown, and so have those that are told of lists, whether at once or in turn;
/// they are as many as before.
pub fn accounts_grow()
    ensures none { (accounts : List Account) → HaveGrown accounts accounts }
    ensures lists { (accounts : List Account) (lists : List (List Told)) → HaveGrown accounts (with_all accounts lists) }
    ensures on { (before between after : List Account) → HaveGrown before between → HaveGrown between after → HaveGrown before after }
    ensures count { (before after : List Account) → HaveGrown before after → length after ≡ length before }
{}

/// Room for the most denials is room for each auditor's.
pub fn room_for_the_most_is_enough()
    ensures { (most : ℕ) (numbers : List ℕ) (accounts : List Account)
        → HaveRoom most accounts → All (λ number. number ≤ most) numbers → HaveRoomFor numbers accounts }
{}
