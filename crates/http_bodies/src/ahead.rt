//! How far a body would be after bytes that aren't taken yet.

ghost use Rattle.std.specs.Prelude.{◌≡◌, ℕ, ◌-◌, List, length};
ghost use Rattle.http_bodies.specs.Bodies.{body_at, after_bytes};

use crate::runs::{after_run, run_length};
use crate::states::BodyState;
use resty_base::bytes_after;

/// How far a body that is so far would be after a further piece, where the sizes of its chunks may still come to `room`.
pub(crate) fn state_after(state: BodyState, room: u64, piece: &[u8]) -> BodyState
    ensures { (max : ℕ) (content : List ℕ) → room ≡ max - length content → result ≡ (after_bytes (body_at max state content) piece.now).state }
{
    let mut state = state;
    let mut left = room;
    let mut rest = piece;
    while let [byte, others @ ..] = rest {
        if state.is_settled() {
            return state;
        }
        match state {
            BodyState::Data(more, of) => {
                let count = run_length(more, rest.len());
                state = after_run(more, of, rest.len());
                left = left.saturating_sub(count as u64);
                rest = bytes_after(rest, count);
            }
            _ => {
                state = state.after(left, *byte);
                rest = others;
            }
        }
    }
    state
}
