//! What the body of a function mentions: modules and functions.

ghost use Rattle.std.specs.Prelude.{◌≡◌, ◌++◌, ◌∷◌, [], OnOk, Some};
ghost use Rattle.std.specs.List.{list_all};
ghost use Rattle.lua_ast.specs.declared.expressions.ExprKind.{Global};
ghost use Rattle.lua_linking.specs.Mentions as spec;
ghost use Rattle.lua_linking.specs.declared.mentions.Mention.TheVariants.{Inner};

use lua_ast::{Expr, ExprKind};
use resty_base::Bytes;
use std::alloc::AllocError;
use std::rc::Rc;

/// What the body of a function mentions.
#[derive(Drop)]
pub(crate) enum Mention {
    /// A module, by its literal name after `require`.
    Module(Bytes),
    /// A function that is written there, by its number.
    Inner(u32),
}

/// Whether the byte may stand in the name of a module.
fn is_name_byte(byte: u8) -> bool
    ensures { result ≡ spec.is_name_byte byte }
{
    byte.is_ascii_alphanumeric() || byte == b'_' || byte == b'-' || byte == b'.'
}

/// Whether each of these bytes may stand in the name of a module.
fn are_name_bytes(text: &[u8]) -> bool
    ensures { result ≡ list_all spec.is_name_byte text.now }
{
    text.iter().all(|byte| is_name_byte(*byte))
}

/// Whether the text may be the name of a module.
fn is_module_name(text: &[u8]) -> bool
    ensures { result ≡ spec.is_module_name text.now }
{
    !text.is_empty() && are_name_bytes(text)
}

/// Whether a call of the global of this name, with this text as its first argument, names a module.
fn is_required(function: &[u8], text: &[u8]) -> bool
    ensures { result ≡ spec.is_required function.now text.now }
{
    function == b"require".as_slice() && is_module_name(text)
}

/// Notes a function.
pub(crate) fn mention_function(number: u32, mentions: &mut Vec<Mention>) -> Result<(), AllocError>
    ensures { OnOk result (mentions.new.items ≡ mentions.old.items ++ Inner number ∷ []) }
{
    mentions.push(Mention::Inner(number))?;
    Ok(())
}

/// Notes the module that a call of these parts names, if it names one.
pub(crate) fn mention_call(
    callee: &Rc<Expr>,
    values: &Rc<Vec<Expr>>,
    mentions: &mut Vec<Mention>,
) -> Result<(), AllocError>
    ensures { OnOk result (mentions.new.items ≡ mentions.old.items ++ spec.module_in callee.now.value values.now.value.items) }
{
    mention_module(callee, values, mentions)
}

/// Notes the module that a call names, if it names one.
fn mention_module(
    callee: &Expr,
    values: &[Expr],
    mentions: &mut Vec<Mention>,
) -> Result<(), AllocError>
    ensures { OnOk result (mentions.new.items ≡ mentions.old.items ++ spec.module_in callee.now values.now) }
{
    match &callee.kind {
        ExprKind::Global(function) => mention_first(function, values, mentions),
        _ => Ok(()),
    }
}

/// Notes the module that a call of a global with these arguments names, if it names one.
fn mention_first(
    function: &Bytes,
    values: &[Expr],
    mentions: &mut Vec<Mention>,
) -> Result<(), AllocError>
    ensures { OnOk result (mentions.new.items ≡ mentions.old.items ++ spec.module_of (Global function.now) (spec.first_kind values.now)) }
{
    match values.first() {
        Some(value) => mention_text(function, value, mentions),
        None => Ok(()),
    }
}

/// Notes the module that a call of a global with this first argument names, if it names one.
fn mention_text(
    function: &Bytes,
    value: &Expr,
    mentions: &mut Vec<Mention>,
) -> Result<(), AllocError>
    ensures { OnOk result (mentions.new.items ≡ mentions.old.items ++ spec.module_of (Global function.now) (Some value.now.kind)) }
{
    match &value.kind {
        ExprKind::Text(text) => {
            if is_required(function.as_slice(), text.as_slice()) {
                mentions.push(Mention::Module(text.clone()?))?;
            }
            Ok(())
        }
        _ => Ok(()),
    }
}
