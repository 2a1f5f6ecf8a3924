//! Laws of calls and of whole lives of threads, each the contract of a function.

ghost use Rattle.lua_meaning_laws.specs.Standing.{CallsKeepStanding};
ghost use Rattle.lua_meaning_laws.specs.Lives.{LivesKeepStanding, ResumesKeepStanding};

use lua_meaning::depth_never_shows;
use lua_values::{reads_fit, still_fits, writes_keep_fitting};

/// Over its whole life, by an outside that keeps to what is there, a thread leaves a heap that names only what is there, in
/// which all that was frozen as it began is as it was.
pub fn lives_keep_standing()
    ensures { LivesKeepStanding }
{
    depth_never_shows();
    still_fits();
    writes_keep_fitting();
    reads_fit();
}

/// What a thread comes to that is resumed once more stands so after the heap of that resume.
pub fn resumes_keep_standing()
    ensures { ResumesKeepStanding }
{
    depth_never_shows();
    still_fits();
    writes_keep_fitting();
    reads_fit();
}

/// A call of what is there with what is there leaves a heap that names only what is there, in which all that was frozen is
/// as it was.
pub fn calls_keep_standing()
    ensures { CallsKeepStanding }
{
    lives_keep_standing();
}
