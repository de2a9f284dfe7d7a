//! A judged reference is completed: what is granted and no transfer makes its cell step.

ghost use Rattle.std.specs.Prelude.{◌≡◌, IsSome, None, Some};
ghost use Rattle.mx_core.specs.Judging.{at_once, kind_of};
ghost use Rattle.mx_desc.specs.Completing.{AwaitsCell, AwaitsCellUnless, HasCell, IsCompleted};
ghost use Rattle.mx_rule.specs.Seats.{pass_of};
ghost use Rattle.mx_sdw.specs.Operations.{writes};

use mx_core::{Asked, Kind, Outcome, Triple};
use mx_rule::{Board, PassSeat};
use mx_sdw::{Op, Word, judge, new_ring};

/// The kind of an operation's element.
#[inline(always)]
pub(crate) fn kind_of(op: Op) -> Kind
    ensures { result ≡ kind_of op }
{
    match op {
        Op::Read => Kind::Read,
        Op::Indirect => Kind::Ind,
        Op::Write => Kind::Write,
        Op::Fetch => Kind::Fetch,
        Op::Call { .. } => Kind::Call,
        Op::Return => Kind::Return,
    }
}

/// Whether it stores.
#[inline(always)]
fn writes(op: Op) -> bool
    ensures { result ≡ writes op }
{
    match op {
        Op::Write => true,
        Op::Read | Op::Indirect | Op::Fetch | Op::Call { .. } | Op::Return => false,
    }
}

/// What a reference comes to that was judged on a triple: the seat holds it where it waits for its cell step.
#[inline(always)]
pub(crate) fn complete<E>(
    seat: &mut PassSeat<E>,
    shared: &Board<E>,
    on: &Triple,
    asked: &Asked,
    value: Word,
) -> Outcome
    requires fits { seat.old.seat.table_id ≡ shared.now.table_id }
    requires layout { shared.now.key.layout ≡ seat.old.layout }
    requires waits { AwaitsCellUnless (at_once on.now.desc asked.now) on.now asked.now (pass_of seat.old.seat.me.0) }
    ensures done { IsCompleted on.now asked.now value (pass_of seat.old.seat.me.0) result
        (pass_of seat.new.seat.me.0) }
    ensures place { seat.new.seat.table_id ≡ seat.old.seat.table_id }
    ensures layout { seat.new.layout ≡ seat.old.layout }
{
    if seat.holds() {
        go_through(seat, shared, on, asked, value)
    } else {
        // (a copy, so that the compiler need not keep what is asked in memory where a cell step follows)
        let copy = *asked;
        over(on, &copy)
    }
}

/// What a reference comes to that is over at once.
fn over(on: &Triple, asked: &Asked) -> Outcome
    requires { IsSome (at_once on.now.desc asked.now) }
    ensures { at_once on.now.desc asked.now ≡ Some result }
{
    match judge(&on.desc, asked.op, asked.ring, u32::from(asked.word)) {
        Err(denial) => Outcome::Denied(denial),
        Ok(_) => Outcome::Entered {
            ring: new_ring(&on.desc, asked.op, asked.ring),
        },
    }
}

/// What a reference comes to that is held.
#[inline(always)]
fn go_through<E>(
    seat: &mut PassSeat<E>,
    shared: &Board<E>,
    on: &Triple,
    asked: &Asked,
    value: Word,
) -> Outcome
    requires fits { seat.old.seat.table_id ≡ shared.now.table_id }
    requires layout { shared.now.key.layout ≡ seat.old.layout }
    requires waits { at_once on.now.desc asked.now ≡ None }
    requires held { AwaitsCell on.now asked.now (pass_of seat.old.seat.me.0) }
    ensures done { HasCell on.now asked.now value (pass_of seat.old.seat.me.0) result (pass_of seat.new.seat.me.0) }
    ensures place { seat.new.seat.table_id ≡ seat.old.seat.table_id }
    ensures layout { seat.new.layout ≡ seat.old.layout }
{
    if writes(asked.op) {
        seat.store_cell(shared, value);
        return Outcome::Written { value };
    }
    let held = seat.load_cell(shared);
    Outcome::Read {
        value: held.value(),
        writer: held.writer(),
        stamp: held.stamp(),
    }
}
