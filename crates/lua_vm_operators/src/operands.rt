//! The items of operators and of parentheses.

ghost use Rattle.std.specs.Prelude.{◌≡◌, not, if◌then◌else◌};
ghost use Rattle.lua_values.specs.Heap.{StoreView};
ghost use Rattle.lua_meaning.specs.Setting.{Setting};
ghost use Rattle.lua_frames.specs.Follows.{Takes};

use crate::operators::{operate, operate_one};
use lua_ast::{BinOp, Expr, UnOp};
use lua_frames::{Flow, Frames, Host, Item, give_one, take_first};
use lua_operators::is_truthy;
use lua_values::{Store, Value};
use lua_vm_expressions::value_under;
use std::alloc::AllocError;
use std::rc::Rc;

/// The left operand is there, and the right one is evaluated.
pub fn right<H: Host>(
    frames: &mut Frames,
    host: &H,
    store: &mut Store,
    line: u32,
    operator: BinOp,
    b: Rc<Expr>,
) -> Result<Flow, AllocError>
    ensures { Takes (H.setting host.now) (Item.Right line operator b) frames.old store.old frames.new store.new result }
{
    match take_first(frames) {
        None => Ok(Flow::Went),
        Some(value) => {
            value_under(
                frames,
                host,
                store,
                Item::Operate(line, operator, value),
                &b,
            )
        }
    }
}

/// What is indexed is there, and its key is evaluated.
pub fn key<H: Host>(
    frames: &mut Frames,
    host: &H,
    store: &mut Store,
    line: u32,
    b: Rc<Expr>,
) -> Result<Flow, AllocError>
    ensures { Takes (H.setting host.now) (Item.Key line b) frames.old store.old frames.new store.new result }
{
    match take_first(frames) {
        None => Ok(Flow::Went),
        Some(value) => value_under(frames, host, store, Item::At(line, value), &b),
    }
}

/// `and`: the second operand, where the first holds.
pub fn and_then<H: Host>(
    frames: &mut Frames,
    host: &H,
    store: &mut Store,
    b: Rc<Expr>,
) -> Result<Flow, AllocError>
    ensures { Takes (H.setting host.now) (Item.AndThen b) frames.old store.old frames.new store.new result }
{
    match take_first(frames) {
        None => Ok(Flow::Went),
        Some(value) => {
            if is_truthy(&value) {
                value_under(frames, host, store, Item::First, &b)
            } else {
                give_one(frames, value)
            }
        }
    }
}

/// `or`: the second operand, where the first doesn't hold.
pub fn or_else<H: Host>(
    frames: &mut Frames,
    host: &H,
    store: &mut Store,
    b: Rc<Expr>,
) -> Result<Flow, AllocError>
    ensures { Takes (H.setting host.now) (Item.OrElse b) frames.old store.old frames.new store.new result }
{
    match take_first(frames) {
        None => Ok(Flow::Went),
        Some(value) => {
            if is_truthy(&value) {
                give_one(frames, value)
            } else {
                value_under(frames, host, store, Item::First, &b)
            }
        }
    }
}

/// One value of those that are given.
pub fn first(frames: &mut Frames) -> Result<Flow, AllocError>
    ensures { (S : Setting) → (store : StoreView) → Takes S Item.First frames.old store frames.new store result }
{
    match take_first(frames) {
        None => Ok(Flow::Went),
        Some(value) => give_one(frames, value),
    }
}

/// The truth of one value of those that are given, or its opposite where false is wanted.
pub fn truth(frames: &mut Frames, wanted: bool) -> Result<Flow, AllocError>
    ensures { (S : Setting) → (store : StoreView) → Takes S (Item.Truth wanted) frames.old store frames.new store result }
{
    match take_first(frames) {
        None => Ok(Flow::Went),
        Some(value) => give_one(frames, Value::Truth(holds_as(wanted, is_truthy(&value)))),
    }
}

/// Whether a truth holds, or where false is wanted, whether it doesn't.
fn holds_as(wanted: bool, holds: bool) -> bool
    ensures { result ≡ (if wanted then holds else not holds) }
{
    if wanted { holds } else { !holds }
}

/// Both operands are there.
pub fn binary<H: Host>(
    frames: &mut Frames,
    host: &H,
    store: &mut Store,
    line: u32,
    operator: BinOp,
    a: Value,
) -> Result<Flow, AllocError>
    ensures { Takes (H.setting host.now) (Item.Operate line operator a) frames.old store.old frames.new store.new result }
{
    match take_first(frames) {
        None => Ok(Flow::Went),
        Some(b) => operate(frames, host, store, line, operator, a, b),
    }
}

/// The operand is there.
pub fn unary<H: Host>(
    frames: &mut Frames,
    host: &H,
    store: &mut Store,
    line: u32,
    operator: UnOp,
) -> Result<Flow, AllocError>
    ensures { Takes (H.setting host.now) (Item.Unary line operator) frames.old store.old frames.new store.new result }
{
    match take_first(frames) {
        None => Ok(Flow::Went),
        Some(a) => operate_one(frames, host, store, line, operator, a),
    }
}
