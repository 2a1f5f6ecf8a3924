//! What `ngx.print` and `ngx.say` print of their arguments.

ghost use Rattle.std.specs.Prelude.{◌≡◌, ◌+◌, ◌<◌, ◌-◌, ◌^◌, ◌∷◌, [], Some, IfOk, OnOk};
ghost use Rattle.std.specs.Option.{option_or};
ghost use Rattle.lua_lib_base.specs.Work.{text_length, texts_length};
ghost use Rattle.lua_values.specs.Pairs.{value_at};
ghost use Rattle.lua_values.specs.StoreCalls.{pairs_of};
ghost use Rattle.lua_values.specs.Values.{number as number_value};
ghost use Rattle.lua_values.specs.declared.values.Value.TheVariants.{Table as OfTable};
ghost use Rattle.ngx_calls.specs.Printing as spec;
ghost use Rattle.ngx_calls.specs.Walks as walks;

use lua_lib_base::count_number;
use lua_operators::{LuaType, text_of, type_of};
use lua_values::{Store, Value};
use resty_base::{Bytes, first_bytes};
use std::alloc::{AllocError, Global};

/// How many levels deep arrays may be in one another.
const MOST_LEVELS: u32 = 200;

/// How many values may be met in a call.
const MOST_VALUES: u32 = 1_000_000;

/// Of what is printed no more bytes are kept than show that it is too much.
const MOST_KEPT: usize = 4_194_305;

/// What the arguments come to.
#[derive(Debug, Drop)]
pub(crate) enum Printing {
    BadRequest,
    /// The argument of this number, from 1 on, can't be printed: the type of what is met in it.
    BadArgument(u32, LuaType),
    /// The first bytes of what is printed, and how many bytes of text were taken out of arrays.
    Prints(Bytes, u64),
}

/// Why a walk through values ends before its end.
enum WalkFault {
    Memory,
    BadRequest,
}

impl From<AllocError> for WalkFault {
    ghost use Rattle.std.specs.Prelude.{◌≡◌};
    ghost use Rattle.ngx_calls.specs.declared.printing.WalkFault.TheVariants.{Memory};

    ghost from_gives = { λ _ fault. fault ≡ Memory };

    fn from(_fault: AllocError) -> WalkFault {
        WalkFault::Memory
    }
}

/// A walk through the values that are met: how many may still be met, the first bytes of what is printed of those that were, how many bytes of text were
/// taken out of arrays, and the first value that can't be printed, by its type and the number of its argument.
#[derive(Drop)]
struct Walk {
    left: u32,
    printed: Vec<u8>,
    taken: u64,
    wrong: Option<(u32, LuaType)>,
}

/// What the arguments of a call come to, with these bytes after what they print.
pub(crate) fn print(
    alloc: Global,
    args: &[Value],
    end: &[u8],
    store: &Store,
) -> Result<Printing, AllocError>
    ensures { IfOk result (λ came. came ≡ walks.given_as end.now (spec.printing store.now.heap args.now)) }
{
    let mut walk = Walk {
        left: MOST_VALUES,
        printed: Vec::new(alloc),
        taken: 0,
        wrong: None,
    };
    match walk_arguments(alloc, &mut walk, store, args) {
        Ok(()) => walked(walk, end),
        Err(WalkFault::BadRequest) => Ok(Printing::BadRequest),
        Err(WalkFault::Memory) => Err(AllocError),
    }
}

/// What a walk through all arguments came to.
fn walked(walk: Walk, end: &[u8]) -> Result<Printing, AllocError>
    ensures { IfOk result (λ came. came ≡ walks.came_to end.now (walks.seen walk)) }
{
    let Walk {
        printed,
        taken,
        wrong,
        ..
    } = walk;
    if let Some((number, found)) = wrong {
        return Ok(Printing::BadArgument(number, found));
    }
    let mut printed = printed;
    put_kept(&mut printed, end)?;
    Ok(Printing::Prints(Bytes::from_vec(printed)?, taken))
}

/// Walks through what is met in the arguments.
fn walk_arguments(
    alloc: Global,
    walk: &mut Walk,
    store: &Store,
    args: &[Value],
) -> Result<(), WalkFault>
    requires { walk.old.left < 2 ^ 32 - 1 }
    ensures { walks.ComesTo (walks.after_arguments (spec.met_in spec.most_levels store.now.heap) 1 args.now (walks.seen walk.old)) walk.new result }
{
    let mut number: u32 = 0;
    for value in args {
        number += 1;
        walk_argument(alloc, walk, store, value, number)?;
    }
    Ok(())
}

/// Walks through what is met in an argument.
fn walk_argument(
    alloc: Global,
    walk: &mut Walk,
    store: &Store,
    value: &Value,
    number: u32,
) -> Result<(), WalkFault>
    ensures { walks.ComesTo (walks.after_argument (spec.met_in spec.most_levels store.now.heap) number value.now (walks.seen walk.old)) walk.new result }
{
    match value {
        Value::Table(t) => walk_array(alloc, walk, store, *t, MOST_LEVELS, number),
        other => meet(alloc, walk, other, 0, number),
    }
}

/// Walks through an array, which may be so many levels deep.
fn walk_array(
    alloc: Global,
    walk: &mut Walk,
    store: &Store,
    t: u32,
    levels: u32,
    number: u32,
) -> Result<(), WalkFault>
    ensures { walks.ComesTo (walks.after_met texts_length number (spec.met_in levels store.now.heap (OfTable t)) (walks.seen walk.old)) walk.new result }
{
    if levels == 0 {
        return Err(WalkFault::BadRequest);
    }
    count(walk)?;
    for index in 0..store.border(t) {
        match element_after(store, t, index)? {
            Value::Table(inner) => walk_array(alloc, walk, store, *inner, levels - 1, number)?,
            other => meet(alloc, walk, other, text_length(other), number)?,
        }
    }
    Ok(())
}

/// The element of an array after so many others.
fn element_after(store: &Store, t: u32, index: u64) -> Result<&Value, AllocError>
    ensures { IfOk result (λ value. value.now ≡ value_at (pairs_of store.now.heap t) (number_value (index + 1))) }
{
    let number = count_number(index.saturating_add(1))?;
    Ok(store.get(t, &Value::Number(number)))
}

/// One value more is met.
fn count(walk: &mut Walk) -> Result<(), WalkFault>
    ensures { walks.ComesTo (walks.after_one (walks.seen walk.old)) walk.new result }
{
    if walk.left == 0 {
        return Err(WalkFault::BadRequest);
    }
    walk.left -= 1;
    Ok(())
}

/// A value is met, of whose text so many bytes are taken out of an array.
fn meet(
    alloc: Global,
    walk: &mut Walk,
    value: &Value,
    taken: u64,
    number: u32,
) -> Result<(), WalkFault>
    ensures { walks.ComesTo (walks.after_met (λ _. taken) number (Some (value.now ∷ [])) (walks.seen walk.old)) walk.new result }
{
    count(walk)?;
    walk.taken = walk.taken.saturating_add(taken);
    match text_printed(alloc, value)? {
        Some(text) => Ok(put_kept(&mut walk.printed, &text)?),
        None => {
            note_wrong(walk, type_of(value), number);
            Ok(())
        }
    }
}

/// A value of this type, which can't be printed, is met in the argument of this number.
fn note_wrong(walk: &mut Walk, found: LuaType, number: u32)
    ensures { walks.seen walk.new ≡ record (walks.seen walk.old) { wrong = option_or walk.old.wrong (Some (number, found)) } }
{
    if walk.wrong.is_none() {
        walk.wrong = Some((number, found));
    }
}

/// The bytes of the text that a value is.
fn text_length(value: &Value) -> u64
    ensures { result ≡ text_length value.now }
{
    match value {
        Value::Text(text) => text.len() as u64,
        _ => 0,
    }
}

/// The text of a value, if it can be printed; that of an array is empty.
fn text_printed(alloc: Global, value: &Value) -> Result<Option<Bytes>, AllocError>
    ensures { IfOk result (λ text. text ≡ spec.text_printed value.now) }
{
    Ok(match value {
        Value::Table(_) => Some(Bytes::from_static(b"")),
        Value::Null => Some(Bytes::from_static(b"null")),
        Value::Text(text) => Some(text.clone()?),
        Value::Nil | Value::Truth(_) | Value::Number(_) => Some(text_of(alloc, value)?),
        _ => None,
    })
}

/// Puts bytes after others, as far as they are kept.
fn put_kept(printed: &mut Vec<u8>, bytes: &[u8]) -> Result<(), AllocError>
    ensures { OnOk result (printed.new.items ≡ walks.kept printed.old.items bytes.now) }
{
    let room = MOST_KEPT.saturating_sub(printed.len());
    printed.extend_from_slice(first_bytes(bytes, room))
}
