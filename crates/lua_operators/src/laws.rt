//! Laws of the definitions, each the contract of a function.

ghost use Rattle.lua_operators.specs.Laws.{LessIsBelow, OrEqualIsNotAbove, SameTypeIsEqual};

/// A text is less than another where it ends and the other goes on, or where it has the lesser of the first bytes that
/// differ.
pub fn less_is_below()
    ensures { LessIsBelow }
{}

/// `a <= b` is `not (b < a)`, of two numbers and of two texts.
pub fn or_equal_is_not_above()
    ensures { OrEqualIsNotAbove }
{}

/// The test of types in the texts of faults is equality.
pub fn same_type_is_equal()
    ensures { SameTypeIsEqual }
{}
