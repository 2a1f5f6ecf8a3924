//! Blanks and comments, and the ends of lines.
ghost use Rattle.std.specs.Prelude.{◌≡◌, ◌≤◌, ◌<◌, ◌+◌, ◌^◌, length};
ghost use Rattle.conf_text.specs.Layout as spec;

/// Whether the byte is a blank, which stands between words.
pub(crate) fn is_blank(byte: u8) -> bool
    ensures { result ≡ spec.is_blank byte }
{
    byte == b' ' || byte == b'\t' || byte == b'\r' || byte == b'\n'
}

/// Whether the byte belongs to the layout, `commented` where it stands in a comment.
fn is_layout(commented: bool, byte: u8) -> bool
    ensures { result ≡ spec.is_layout commented byte }
{
    commented || is_blank(byte) || byte == b'#'
}

/// Whether the byte after this one of the layout stands in a comment.
fn is_commented_after(commented: bool, byte: u8) -> bool
    ensures { result ≡ spec.is_commented_after commented byte }
{
    (commented || byte == b'#') && byte != b'\n'
}

/// How many bytes of blanks and comments stand at the front.
pub(crate) fn layout_size(text: &[u8]) -> usize
    ensures value { result ≡ spec.layout_size text.now }
    ensures within { result ≤ length text.now }
{
    let mut commented = false;
    let mut rest = text;
    while let [first, others @ ..] = rest {
        if !is_layout(commented, *first) {
            return text.len() - rest.len();
        }
        commented = is_commented_after(commented, *first);
        rest = others;
    }
    text.len()
}

/// How many lines end in the text.
fn line_ends(text: &[u8]) -> usize
    ensures value { result ≡ spec.line_ends text.now }
    ensures within { result ≤ length text.now }
{
    text.iter().filter(|byte| **byte == b'\n').count()
}

/// The line after a text that begins on a line.
pub(crate) fn line_after(line: usize, text: &[u8]) -> usize
    requires { line + length text.now < 2 ^ 64 }
    ensures value { result ≡ spec.line_after line text.now }
    ensures within { result ≤ line + length text.now }
{
    line + line_ends(text)
}
