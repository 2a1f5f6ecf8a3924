//! Laws of the definitions.

ghost use Rattle.std.specs.Prelude.{◌≡◌, ◌≢◌, ℕ, ◌++◌, List};
ghost use Rattle.http_in.specs.declared.heads.HeadRead.{HeadRead};
ghost use Rattle.http_in.specs.declared.heads.HeadRead.TheVariants.{More};
ghost use Rattle.http_in.specs.Heads.{Reads};
ghost use Rattle.http_in.specs.Scanning.{after_bytes, scan_of};

/// A head is scanned piece by piece as its bytes joined.
pub fn pieces_are_scanned_as_their_bytes_joined()
    ensures { (xs ys : List ℕ) → after_bytes (scan_of xs) ys ≡ scan_of (xs ++ ys) }
{}

/// The bytes of a connection have one answer.
pub fn heads_have_one_answer()
    ensures { (bytes : List ℕ) (x y : HeadRead) → Reads bytes x → Reads bytes y → x ≡ y }
{}

/// The answer stays whatever follows, unless it is More.
pub fn answers_to_heads_stay()
    ensures { (bytes more : List ℕ) (x : HeadRead) → x ≢ More → Reads bytes x → Reads (bytes ++ more) x }
{}
