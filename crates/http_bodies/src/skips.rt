//! Bodies whose content is dropped.

ghost use Rattle.std.specs.Prelude.{◌≡◌};
ghost use Rattle.http_bodies.specs.Bodies.{begun_state};
ghost use Rattle.http_bodies.specs.Skips as spec;

use crate::bodies::begun_state;
use crate::runs::{after_run, run_length};
use crate::states::BodyState;
use http_in::BodyKind;
use resty_base::bytes_after;

/// How far a body without a limit is of which no byte came.
pub fn begun_skip(kind: BodyKind) -> BodyState
    ensures { result ≡ begun_state kind spec.no_limit }
{
    begun_state(kind, u64::MAX)
}

/// How far the body is after a further piece, without a limit, and how many bytes of the piece belong to it. The content is dropped.
pub fn skip(state: BodyState, piece: &[u8]) -> (BodyState, usize)
    ensures moved { result.0 ≡ spec.skipped state piece.now }
    ensures counted { result.1 ≡ spec.skip_count state piece.now }
{
    let mut state = state;
    let mut rest = piece;
    while let [byte, others @ ..] = rest {
        if state.is_settled() {
            return (state, piece.len() - rest.len());
        }
        match state {
            BodyState::Data(more, of) => {
                state = after_run(more, of, rest.len());
                rest = bytes_after(rest, run_length(more, rest.len()));
            }
            _ => {
                state = state.after(u64::MAX, *byte);
                rest = others;
            }
        }
    }
    (state, piece.len())
}
