//! The text in Lua that says what `ngx` is.

ghost use Rattle.std.specs.Prelude.{◌≡◌};
ghost use Rattle.ngx_calls.specs.OwnText.{ngx_text};

/// The chunk is called with the table of the host's functions, where each stands at the number after its own.
const PRELUDE: &[u8] = b"local N = ...\nngx = {print = N[6], say = N[7]}\n";

/// The text that makes the global table `ngx`.
#[tactic(auto, unfolding(crate::specs::OwnText::ngx_text))]
pub fn prelude() -> &'static [u8]
    ensures { result.now ≡ ngx_text }
{
    PRELUDE
}
