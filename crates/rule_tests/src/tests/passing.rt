//! A process at work through its pass.

ghost use Rattle.std.specs.Prelude.{◌≡◌, ◌≤◌, ◌+◌, MatchOption};
ghost use Rattle.mx_core.specs.declared.words.Stage.TheVariants.{Outside, Ready};
ghost use Rattle.mx_desc.specs.Openings.{AreFreshPasses};
ghost use Rattle.rule_tests.specs.Passing.{AreNew, IsNew};

use super::Reference;
use super::referring::Seen;
use mx_desc::{Naming, Pass, Passes, Referred};
use mx_rule::Board;

pub(super) fn came(referred: &Referred) -> Seen {
    match referred {
        Referred::Seen(element) => Seen::At(element.point, element.outcome),
        Referred::Missing { by } => Seen::Missed(*by),
    }
}

pub(super) fn leave<B: Naming>(pass: &mut Pass<u32, B>, shared: &Board<u32>)
    requires place { shared.now.table_id ≡ B.table }
    requires layout { shared.now.key.layout ≡ B.layout }
    requires ready { pass.old.view.stage ≡ Ready }
    ensures outside { pass.new.view.stage ≡ Outside }
    ensures memory { pass.new.view.memory ≡ pass.old.view.memory }
    ensures spare { pass.new.spare ≡ pass.old.spare }
    ensures keeps { pass.new.keeps ≡ pass.old.keeps }
{
    pass.leave(shared);
}

// The process goes in, refers by the descriptor word, and goes out.
pub(super) fn visit<B: Naming>(pass: &mut Pass<u32, B>, shared: &Board<u32>, asked: Reference)
    requires place { shared.now.table_id ≡ B.table }
    requires layout { shared.now.key.layout ≡ B.layout }
    requires outside { pass.old.view.stage ≡ Outside }
    requires spare { 1 ≤ pass.old.spare }
    ensures outside { pass.new.view.stage ≡ Outside }
    ensures spare { pass.old.spare ≤ pass.new.spare + 1 }
    ensures keeps { pass.new.keeps ≡ pass.old.keeps }
{
    pass.enter(shared);
    pass.load_connect(shared);
    pass.refer(
        shared,
        asked.segno,
        asked.op,
        asked.ring,
        asked.word,
        asked.value,
    );
    leave(pass, shared);
}

// The passes of all processes, the last one last.
pub(super) fn opened_passes<B: Naming>(passes: Passes<u32, B>) -> Vec<Pass<u32, B>>
    requires { AreFreshPasses B.start 1 passes }
    ensures { AreNew result.items }
{
    passes.into_items()
}

// The pass of the last process.
pub(super) fn take_last<B: Naming>(passes: &mut Vec<Pass<u32, B>>) -> Option<Pass<u32, B>>
    requires { AreNew passes.old.items }
    ensures last { MatchOption result (Unit {0}) (λ pass. IsNew pass) }
    ensures others { AreNew passes.new.items }
{
    passes.pop()
}
