//! Laws of escapes: each is the clause of a function that does nothing.
ghost use Rattle.std.specs.Prelude.{◌≡◌, ◌<◌, All, ℕ, List};
ghost use Rattle.uri_args.specs.Escapes.{escape, unescape};

/// A law: what is escaped is unescaped to the same bytes.
pub fn unescape_undoes_escape()
    ensures { (text : List ℕ) → All (λ b. b < 256) text → unescape (escape text) ≡ text }
{}
