//! Bytes of a slice by their index, and parts of it by a count of bytes.

ghost use Rattle.std.specs.Prelude.{◌≡◌, ◌<◌, length, slice_index, take, drop};

/// The byte at an index, 0 at the end and after it.
pub fn byte_at(bytes: &[u8], index: usize) -> u8
    ensures value { result ≡ slice_index bytes.now index }
    ensures within { 0 < result → index < length bytes.now }
{
    if index < bytes.len() { bytes[index] } else { 0 }
}

/// The first `count` bytes, or all where there are fewer.
pub fn first_bytes(bytes: &[u8], count: usize) -> &[u8]
    ensures { result.now ≡ take count bytes.now }
{
    &bytes[..count.min(bytes.len())]
}

/// The bytes after the first `count`, none where there are no more.
pub fn bytes_after(bytes: &[u8], count: usize) -> &[u8]
    ensures { result.now ≡ drop count bytes.now }
{
    &bytes[count.min(bytes.len())..]
}
