//! Laws of the readings of modules, the contract of a function.

ghost use Rattle.site_same_laws.specs.Readings.{ReadingsAgree, NoReadingIsRefused, RefusalsAreAlike};

use crate::{same_programs_have_same_names, same_sets_stay_same};
use lua_lexer::one_reading;

/// Readings of modules that begin with sets that are the same agree: in the sets that they leave, in whether they are refused, and in
/// whether that is for a file that isn't there or is too long.
pub fn readings_are_known()
    ensures agree { ReadingsAgree }
    ensures none { NoReadingIsRefused }
    ensures alike { RefusalsAreAlike }
{
    one_reading();
    same_programs_have_same_names();
    same_sets_stay_same();
}
