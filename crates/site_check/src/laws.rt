//! Laws of sites: each is the clause of a function that does nothing but call other laws.

ghost use Rattle.std.specs.Prelude.{◌≡◌, ◌≢◌, ℕ, List};
ghost use Rattle.site_check.specs.Sites.{IsSite, IsSiteFault};
ghost use Rattle.site_check.specs.declared.faults.CheckFault.{CheckFault};

use conf::{a_text_has_one_configuration, no_configuration_is_refused};
use lua_lexer::one_reading;

/// A law: the text of a site has no fault.
pub fn no_site_is_refused()
    ensures { (text : List ℕ) (fault : CheckFault) → IsSite text → IsSiteFault text fault → fault ≡ CheckFault.Memory }
{
    a_text_has_one_configuration();
    no_configuration_is_refused();
    one_reading();
}
