//! What is said of a site that is checked.

ghost use Rattle.commands.specs.Writing.{WritesOk};

use crate::endings::Ending;
use crate::messages::SITE_OK;
use resty_base::{Sink, put_all};

/// Writes that the files hold a site.
pub fn write_ok<O: Sink>(out: &mut O) -> Ending
    ensures { WritesOk result (O.account out.old) (O.account out.new) }
{
    match put_all(out, SITE_OK) {
        Ok(()) => Ending::Done,
        Err(_) => Ending::NotWritten,
    }
}
