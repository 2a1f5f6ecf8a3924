//! Worked rows as laws: what small programs come to, by the definitions alone.

ghost use Rattle.lua_meaning.specs.Rows.{WorkedRows, SpoiledRows};
ghost use Rattle.lua_meaning.specs.ParkedRows.{ParkedRow};

/// What ten small programs come to, with their steps and units.
pub fn worked_rows()
    ensures { WorkedRows }
{}

/// A step too few, the operands in the other order, or a fault without its position is no row.
pub fn spoiled_rows()
    ensures { SpoiledRows }
{}

/// What a thread asks where it parks under `pcall`, and what it comes to once it is resumed.
pub fn parked_row()
    ensures { ParkedRow }
{}
