//! Laws of how sites start, each the contract of a function.

ghost use Rattle.lua_site.specs.Laws.{StartsAgree, InitIsFrozen, RunsHaveTheirTables};
ghost use Rattle.lua_site.specs.Standing.{StartsStand};

use lua_values::writes_keep_fitting;

/// Two starts of one site come to the same, unless memory runs out.
pub fn starts_agree()
    ensures { StartsAgree }
{}

/// What init left is there in each run as it was, and refuses every write.
pub fn init_is_frozen()
    ensures { InitIsFrozen }
{}

/// A run's global table is its own, and leads on to that which init left; a run finds its table of modules, which is empty.
pub fn runs_have_their_tables()
    ensures { RunsHaveTheirTables }
{}

/// Where calls keep to what is there, all that a started store names is there, and so are the closures of its blocks.
pub fn starts_stand()
    ensures { StartsStand }
{
    writes_keep_fitting();
}
