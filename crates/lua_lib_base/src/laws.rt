//! Laws of the definitions, each the contract of a function.

ghost use Rattle.lua_lib_base.specs.Lawful.{CountingKeepsLawful};

/// Where a function leaves a heap as a library may, so does its call.
pub fn counting_keeps_lawful()
    ensures { CountingKeepsLawful }
{}
