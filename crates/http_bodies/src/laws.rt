//! Laws of the definitions.

ghost use Rattle.std.specs.Prelude.{◌≡◌, ℕ, ◌++◌, List};
ghost use Rattle.http_bodies.specs.Records.{Body};
ghost use Rattle.http_bodies.specs.Bodies.{after_bytes};

/// Pieces are read as their bytes joined.
pub fn pieces_are_read_as_their_bytes_joined()
    ensures { (body : Body) (xs ys : List ℕ) → after_bytes (after_bytes body xs) ys ≡ after_bytes body (xs ++ ys) }
{}
