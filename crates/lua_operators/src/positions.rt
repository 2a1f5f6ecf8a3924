//! The position of a fault.

ghost use Rattle.std.specs.Prelude.{◌≡◌, ◌++◌, IfOk};
ghost use Rattle.lua_operators.specs.Positions.{position};

use itoa::Buffer;
use resty_base::Bytes;
use std::alloc::{AllocError, Global};

/// The text of a fault after its position `FILE:LINE: `; a file without a name has no position.
pub fn with_position(
    alloc: Global,
    file: &[u8],
    line: u32,
    text: &[u8],
) -> Result<Bytes, AllocError>
    ensures { IfOk result (λ whole. whole ≡ position file.now line ++ text.now) }
{
    let mut whole = Vec::new(alloc);
    if !file.is_empty() {
        let mut buffer = Buffer::new();
        whole.extend_from_slice(file)?;
        whole.extend_from_slice(b":")?;
        whole.extend_from_slice(buffer.format(line).as_bytes())?;
        whole.extend_from_slice(b": ")?;
    }
    whole.extend_from_slice(text)?;
    Ok(Bytes::from_vec(whole)?)
}
