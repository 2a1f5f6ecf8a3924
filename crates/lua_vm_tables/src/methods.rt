//! The items of calls of methods (Lua 5.1 Reference Manual, 2.5.8): the object is the first argument.

ghost use Rattle.std.specs.Prelude.{◌≡◌, ◌∷◌, IfOk};
ghost use Rattle.lua_frames.specs.Frames.{here, slots_of};
ghost use Rattle.lua_frames.specs.Follows.{Takes, Works};
ghost use Rattle.lua_vm_tables.specs.Methods.{method_then};

use crate::indexing::index;
use lua_ast::Expr;
use lua_frames::{Flow, Frames, Host, Item, take_first, take_values, wait};
use lua_values::{Store, Value};
use lua_vm_calls::{enter_call, enter_tail_call};
use lua_vm_expressions::list_under;
use resty_base::{Boxed, Bytes};
use std::alloc::AllocError;
use std::rc::Rc;

/// An object before the arguments.
fn before(object: Value, args: Vec<Value>) -> Result<Vec<Value>, AllocError>
    ensures { IfOk result (λ all. all.items ≡ object ∷ args.items) }
{
    let mut args = args;
    args.insert(0, object)?;
    Ok(args)
}

/// The method of this name of an object is looked up, and this item waits for it.
fn look_up<H: Host>(
    frames: &mut Frames,
    host: &H,
    store: &mut Store,
    line: u32,
    object: Value,
    name: Bytes,
    item: Item,
) -> Result<Flow, AllocError>
    ensures { Works (H.setting host.now) (method_then (H.setting host.now) line object name item (here frames.old) (slots_of frames.old))
        frames.old store.old frames.new store.new result }
{
    wait(frames, item)?;
    index(frames, host, store, line, object, Value::Text(name))
}

/// The object is there, and its method is looked up.
pub fn method<H: Host>(
    frames: &mut Frames,
    host: &H,
    store: &mut Store,
    line: u32,
    name: Bytes,
    args: Rc<Vec<Expr>>,
) -> Result<Flow, AllocError>
    ensures { Takes (H.setting host.now) (Item.Method line name args) frames.old store.old frames.new store.new result }
{
    match take_first(frames) {
        None => Ok(Flow::Went),
        Some(object) => {
            let called = Boxed::new(frames.alloc, object.clone()?)?;
            let item = Item::MethodCallee(line, called, args);
            look_up(frames, host, store, line, object, name, item)
        }
    }
}

/// The method is there, and its arguments are evaluated.
pub fn method_callee<H: Host>(
    frames: &mut Frames,
    host: &H,
    store: &mut Store,
    line: u32,
    object: Boxed<Value>,
    args: Rc<Vec<Expr>>,
) -> Result<Flow, AllocError>
    ensures { Takes (H.setting host.now) (Item.MethodCallee line object args) frames.old store.old frames.new store.new result }
{
    match take_first(frames) {
        None => Ok(Flow::Went),
        Some(function) => {
            let function = Boxed::new(frames.alloc, function)?;
            list_under(
                frames,
                host,
                store,
                Item::MethodArguments(line, function, object),
                &args,
            )
        }
    }
}

/// The arguments are there, and the method is called with its object before them.
pub fn method_arguments<H: Host>(
    frames: &mut Frames,
    host: &H,
    store: &mut Store,
    line: u32,
    function: Value,
    object: Value,
) -> Result<Flow, AllocError>
    ensures { Takes (H.setting host.now) (Item.MethodArguments line function object) frames.old store.old frames.new store.new result }
{
    match take_values(frames)? {
        None => Ok(Flow::Went),
        Some(args) => {
            let all = before(object, args)?;
            enter_call(frames, host, store, line, function, all)
        }
    }
}

/// The object of a tail call is there, and its method is looked up.
pub fn tail_method<H: Host>(
    frames: &mut Frames,
    host: &H,
    store: &mut Store,
    line: u32,
    name: Bytes,
    args: Rc<Vec<Expr>>,
) -> Result<Flow, AllocError>
    ensures { Takes (H.setting host.now) (Item.TailMethod line name args) frames.old store.old frames.new store.new result }
{
    match take_first(frames) {
        None => Ok(Flow::Went),
        Some(object) => {
            let called = Boxed::new(frames.alloc, object.clone()?)?;
            let item = Item::TailMethodCallee(line, called, args);
            look_up(frames, host, store, line, object, name, item)
        }
    }
}

/// The method of a tail call is there, and its arguments are evaluated.
pub fn tail_method_callee<H: Host>(
    frames: &mut Frames,
    host: &H,
    store: &mut Store,
    line: u32,
    object: Boxed<Value>,
    args: Rc<Vec<Expr>>,
) -> Result<Flow, AllocError>
    ensures { Takes (H.setting host.now) (Item.TailMethodCallee line object args) frames.old store.old frames.new store.new result }
{
    match take_first(frames) {
        None => Ok(Flow::Went),
        Some(function) => {
            let function = Boxed::new(frames.alloc, function)?;
            list_under(
                frames,
                host,
                store,
                Item::TailMethodArguments(line, function, object),
                &args,
            )
        }
    }
}

/// The arguments of a tail call are there, and the method is called with its object before them.
pub fn tail_method_arguments<H: Host>(
    frames: &mut Frames,
    host: &H,
    store: &mut Store,
    line: u32,
    function: Value,
    object: Value,
) -> Result<Flow, AllocError>
    ensures { Takes (H.setting host.now) (Item.TailMethodArguments line function object) frames.old store.old frames.new store.new result }
{
    match take_values(frames)? {
        None => Ok(Flow::Went),
        Some(args) => {
            let all = before(object, args)?;
            enter_tail_call(frames, host, store, line, function, all)
        }
    }
}
