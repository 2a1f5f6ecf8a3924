//! How many calls may be tried at once where a thread stands.

ghost use Rattle.std.specs.Prelude.{◌+◌, ◌<◌, length};
ghost use Rattle.lua_meaning.specs.Calls.{most_callers};
ghost use Rattle.lua_frames.specs.Frames.{around};

use lua_frames::Frames;

/// How many calls within one another are tried at once.
const LEVELS: u8 = 16;

/// Where more functions than these are around the innermost one, no call is tried.
const MANY_CALLERS: usize = 4_900;

/// How many calls within one another may be tried at once: few enough that all functions around them are not too many.
pub fn levels_of(frames: &Frames) -> u8
    ensures { 0 < result → length (around frames.now) + result < most_callers }
{
    if frames.below.functions() < MANY_CALLERS {
        LEVELS
    } else {
        0
    }
}
