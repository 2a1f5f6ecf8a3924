//! Laws of the definitions, each the contract of a function.

ghost use Rattle.lua_values.specs.Laws.{SameIsEqual, BorderIsLeast, StillFits, WritesKeepFitting, ReadsFit, BothAreLawful};

/// Primitive equality is the equality of values.
pub fn same_is_equal()
    ensures { SameIsEqual }
{}

/// The border of a table is the least n with nothing at n + 1.
pub fn border_is_least()
    ensures { BorderIsLeast }
{}

/// What fits a heap fits each in which no list is shorter; so a store and its copy still fit each other.
pub fn still_fits()
    ensures { StillFits }
{}

/// A heap that fits itself does so after each call of a store that is handed what fits it, and no list gets shorter.
pub fn writes_keep_fitting()
    ensures { WritesKeepFitting }
{}

/// What a store gives of a heap that fits itself fits it.
pub fn reads_fit()
    ensures { ReadsFit }
{}

/// Where each number of two libraries of the host leaves what is frozen and a heap that fits itself, so does each of
/// both as one.
pub fn both_are_lawful()
    ensures { BothAreLawful }
{}
