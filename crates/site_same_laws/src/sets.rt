//! Laws of sets that are the same but for where their parts stand in memory, each the contract of a function.
ghost use Rattle.site_same_laws.specs.Sets.{BlocksKeepSetsSame, EqualLivesStartAlike, ModulesKeepSetsSame, SameSetsStartAlike};

use crate::{joined_programs_are_same, same_programs_live_alike};
use lua_grammar::tokens_have_one_program;
use lua_lexer::one_reading;

/// A text that is added to two sets that are the same leaves sets that are the same.
pub fn same_sets_stay_same()
    ensures modules { ModulesKeepSetsSame }
    ensures blocks { BlocksKeepSetsSame }
{
    one_reading();
    tokens_have_one_program();
    joined_programs_are_same();
}

/// By equal lives a site starts alike.
pub fn equal_lives_start_alike()
    ensures { EqualLivesStartAlike }
{}

/// Two sets that are the same start the same site, with the same functions of the host.
pub fn same_sets_start_alike()
    ensures { SameSetsStartAlike }
{
    same_programs_live_alike();
}
