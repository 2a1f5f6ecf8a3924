//! Arguments: names with values, between `&`.
ghost use Rattle.std.specs.Prelude.{◌≡◌, ◌++◌, ◌∷◌, [], filter, IfOk, OnOk, string_bytes};
ghost use Rattle.uri_args.specs.Arguments as spec;

use crate::escapes::append_escaped;
use crate::shared::{shared, split_shared};
use crate::unescape;
use resty_base::Bytes;
use std::alloc::{AllocError, Global};

/// An argument: its name, and its value where there is a `=`.
#[derive(Debug, PartialEq, Eq, Drop)]
pub struct Pair {
    pub name: Bytes,
    pub value: Option<Bytes>,
}

/// The first `max` arguments that have a name, or all of them where `max` is 0. What has no escape shares the text.
pub fn args_of(alloc: Global, text: &Bytes, max: u32) -> Result<Vec<Pair>, AllocError>
    ensures { IfOk result (λ pairs. pairs.items ≡ spec.args_of text.now max) }
{
    let mut pairs = Vec::new(alloc);
    let mut rest = Some(shared(text)?);
    while let Some(more) = rest {
        let (piece, after) = split_shared(&more, b'&')?;
        let pair = pair_of(alloc, &piece)?;
        push_named(&mut pairs, pair)?;
        if max > 0 && pairs.len() == max as usize {
            return Ok(pairs);
        }
        rest = after;
    }
    Ok(pairs)
}

/// Adds the argument if it has a name.
fn push_named(pairs: &mut Vec<Pair>, pair: Pair) -> Result<(), AllocError>
    ensures { OnOk result (pairs.new.items ≡ pairs.old.items ++ filter spec.is_named (pair ∷ [])) }
{
    if !pair.name.is_empty() {
        pairs.push(pair)?;
    }
    Ok(())
}

/// What the text between two `&` says.
fn pair_of(alloc: Global, piece: &Bytes) -> Result<Pair, AllocError>
    ensures { IfOk result (λ pair. pair ≡ spec.pair_of piece.now) }
{
    let (name, after) = split_shared(piece, b'=')?;
    let name = unescape(alloc, &name)?;
    let value = match after {
        Some(value) => Some(unescape(alloc, &value)?),
        None => None,
    };
    Ok(Pair { name, value })
}

/// The arguments as text, from which `args_of` reads them again where each has a name.
pub fn args_text(alloc: Global, pairs: &[Pair]) -> Result<Bytes, AllocError>
    ensures { IfOk result (λ text. text ≡ spec.args_text pairs.now) }
{
    let mut text = String::new(alloc);
    if let [first, others @ ..] = pairs {
        append_pair(&mut text, first)?;
        for pair in others {
            text.push('&')?;
            append_pair(&mut text, pair)?;
        }
    }
    Bytes::from_string(text)
}

/// Appends the text of an argument.
fn append_pair(out: &mut String, pair: &Pair) -> Result<(), AllocError>
    ensures { OnOk result (string_bytes out.new ≡ string_bytes out.old ++ spec.pair_text pair.now) }
{
    append_escaped(out, &pair.name)?;
    if let Some(value) = &pair.value {
        out.push('=')?;
        append_escaped(out, value)?;
    }
    Ok(())
}
