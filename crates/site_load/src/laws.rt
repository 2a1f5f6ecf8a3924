//! What is known of the sites that files hold: laws, as the contract of a function.

ghost use Rattle.site_load.specs.Same.{SitesAreKnown, NoSiteIsRefused, FaultsAreAlike};

use conf::a_text_has_one_configuration;
use lua_lexer::one_reading;
use site_same_laws::{
    readings_are_known, same_programs_live_alike, same_sets_start_alike, same_sets_stay_same,
};

/// Files hold one site under a name, up to where the trees of its program stand in memory; where they hold a site, none is refused; and
/// where they hold none, a file is missing or too long, or what the files hold is refused, and not both.
pub fn sites_are_known()
    ensures one { SitesAreKnown }
    ensures none { NoSiteIsRefused }
    ensures alike { FaultsAreAlike }
{
    a_text_has_one_configuration();
    site_check::no_site_is_refused();
    one_reading();
    same_programs_live_alike();
    same_sets_stay_same();
    same_sets_start_alike();
    readings_are_known();
}
