//! The file of a module.

ghost use Rattle.std.specs.Prelude.{◌≡◌, ◌++◌, IfOk, OnOk};
ghost use Rattle.lua_modules.specs.Files as spec;

use resty_base::Bytes;
use std::alloc::{AllocError, Global};

/// Appends a module's name, with `/` in place of each `.`.
fn append_path(file: &mut Vec<u8>, name: &[u8]) -> Result<(), AllocError>
    ensures { OnOk result (file.new.items ≡ file.old.items ++ spec.path_of name.now) }
{
    for byte in name {
        file.push(if *byte == b'.' { b'/' } else { *byte })?;
    }
    Ok(())
}

/// Appends what a byte of a pattern stands for.
fn append_piece(file: &mut Vec<u8>, byte: u8, name: &[u8]) -> Result<(), AllocError>
    ensures { OnOk result (file.new.items ≡ file.old.items ++ spec.piece_of name.now byte) }
{
    if byte == b'?' {
        append_path(file, name)
    } else {
        file.push(byte)?;
        Ok(())
    }
}

/// The file of the module of a name, by a pattern as `lua_package_path` gives it.
pub fn file_of(alloc: Global, pattern: &[u8], name: &[u8]) -> Result<Bytes, AllocError>
    ensures { IfOk result (λ file. file ≡ spec.file_of pattern.now name.now) }
{
    let mut file = Vec::new(alloc);
    for byte in pattern {
        append_piece(&mut file, *byte, name)?;
    }
    Ok(Bytes::from_vec(file)?)
}
