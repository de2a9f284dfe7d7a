//! What follows from the definitions alone.

ghost use Rattle.std.specs.Prelude.{◌≡◌, ℕ, ◌↔◌, List, Option, Some, None, Ok, Err};
ghost use Rattle.mx_link.specs.Leading.{FindsNothing, LeadsTo};
ghost use Rattle.mx_link.specs.Targets.{target};
ghost use Rattle.mx_object.specs.Objects.{PlainObjectMap, IsObjectMap, Defines};
ghost use Rattle.mx_search.specs.Searching.{answers, IsFirstFound};
ghost use Rattle.mx_search.specs.declared.rules.Rule.{Rule};
ghost use Rattle.mx_search.specs.declared.searching.Found.{Found};

use crate::resolving::{LinkError, Target};

/// A link leads to a word of a segment exactly where a rule finds the segment, no rule before it finds anything, and
/// the segment's object map defines the symbol with that word.
pub fn a_link_leads_where_its_symbol_is_defined()
    ensures { (answer : Rule → List ℕ → Option Found) (object_of : Found → Option PlainObjectMap) (rules : List Rule)
        (segment symbol : List ℕ) (to : Target)
        → ((found : Found) (object : PlainObjectMap) → object_of found ≡ Some object → IsObjectMap object)
        → (target answer object_of rules segment symbol ≡ Ok to)
        ↔ LeadsTo answer object_of rules segment symbol to }
{}

/// No segment is found exactly where no rule finds one. Where one is found first, it is no object exactly where it has
/// no object map; and where it has one, there is no definition exactly where the map defines the symbol with no word.
pub fn a_link_is_refused_in_order()
    ensures segment_not_found { (answer : Rule → List ℕ → Option Found) (object_of : Found → Option PlainObjectMap)
        (rules : List Rule) (segment symbol : List ℕ)
        → (target answer object_of rules segment symbol ≡ Err LinkError.SegmentNotFound)
        ↔ FindsNothing answer rules segment }
    ensures not_object { (answer : Rule → List ℕ → Option Found) (object_of : Found → Option PlainObjectMap)
        (rules : List Rule) (segment symbol : List ℕ) (found : Found)
        → IsFirstFound (answers answer rules segment) found
        → (target answer object_of rules segment symbol ≡ Err LinkError.NotObject) ↔ (object_of found ≡ None) }
    ensures no_definition { (answer : Rule → List ℕ → Option Found) (object_of : Found → Option PlainObjectMap)
        (rules : List Rule) (segment symbol : List ℕ) (found : Found) (object : PlainObjectMap)
        → IsFirstFound (answers answer rules segment) found → object_of found ≡ Some object → IsObjectMap object
        → (target answer object_of rules segment symbol ≡ Err LinkError.NoDefinition)
        ↔ ((word : ℕ) → Defines object symbol word → ⊥) }
{}
