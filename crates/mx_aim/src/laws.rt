//! What follows from the definitions alone.

ghost use Rattle.std.specs.Prelude.{◌≡◌, true, Some, List, ℕ};
ghost use Rattle.mx_aim.specs.Classes.{PlainClass, IsClass, class_of_text, class_text, dominates, equals, lowest};

/// Dominance is an order: each class dominates itself and the lowest, what a dominated class dominates is dominated too, and
/// two classes that dominate each other are equal.
pub fn dominance_is_an_order()
    ensures itself { (c : PlainClass) → dominates c c ≡ true }
    ensures lowest { (c : PlainClass) → dominates c lowest ≡ true }
    ensures onward { (a b c : PlainClass) → dominates a b ≡ true → dominates b c ≡ true → dominates a c ≡ true }
    ensures both_ways { (a b : PlainClass) → IsClass a → IsClass b → dominates a b ≡ true → dominates b a ≡ true
        → equals a b ≡ true }
{}

/// A class and its text give each other back, so that each class has one spelling.
pub fn each_class_has_one_text()
    ensures read_back { (c : PlainClass) → IsClass c → class_of_text (class_text c) ≡ Some c }
    ensures written_back { (text : List ℕ) (c : PlainClass) → class_of_text text ≡ Some c → class_text c ≡ text }
{}
