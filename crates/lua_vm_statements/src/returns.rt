//! `return` (Lua 5.1 Reference Manual, 2.4.4): a call alone is a tail call; and the items that end with it.

ghost use Rattle.std.specs.Prelude.{◌≡◌, ◌∷◌, [], length, nat_eq, MatchOption};
ghost use Rattle.lua_values.specs.Heap.{StoreView};
ghost use Rattle.lua_meaning.specs.Setting.{Setting};
ghost use Rattle.lua_meaning.specs.Calls.{returned};
ghost use Rattle.lua_meaning.specs.Statements.{return_work};
ghost use Rattle.lua_frames.specs.Signals.{sign_of};
ghost use Rattle.lua_frames.specs.Frames.{here, slots_of};
ghost use Rattle.lua_frames.specs.Follows.{Takes, Works};
ghost use Rattle.lua_vm_statements.specs.Returns.{return_sign, tail_begins, tail_method_begins};

use lua_ast::{Expr, ExprKind};
use lua_frames::{Flow, Frames, Host, Item, Lists, Signal, element, share};
use lua_values::Store;
use lua_vm_expressions::{list_under, value_under};
use resty_base::Bytes;
use std::alloc::AllocError;
use std::mem;
use std::rc::Rc;

/// Begins a `return` of a list.
pub(crate) fn begin_return<H: Host>(
    frames: &mut Frames,
    host: &H,
    store: &mut Store,
    xs: &Rc<Vec<Expr>>,
) -> Result<Flow, AllocError>
    ensures { Works (H.setting host.now) (return_work (H.setting host.now) xs.now.value.items (here frames.old) (slots_of frames.old))
        frames.old store.old frames.new store.new result }
{
    match only(xs) {
        Some(x) => return_one(frames, host, store, xs, x),
        None => list_under(frames, host, store, Item::Return, xs),
    }
}

/// The one expression of a list that has no other.
fn only(xs: &Rc<Vec<Expr>>) -> Option<&Expr>
    ensures { MatchOption result (length xs.now.value.items ≡ 1 → ⊥) (λ x. xs.now.value.items ≡ x.now ∷ []) }
{
    if is_one(xs.as_slice()) {
        element(xs, 0)
    } else {
        None
    }
}

/// Whether a list has one expression.
fn is_one(xs: &[Expr]) -> bool
    ensures { result ≡ nat_eq (length xs.now) 1 }
{
    xs.len() == 1
}

/// Begins a `return` of one expression.
fn return_one<H: Host>(
    frames: &mut Frames,
    host: &H,
    store: &mut Store,
    xs: &Rc<Vec<Expr>>,
    x: &Expr,
) -> Result<Flow, AllocError>
    requires { xs.now.value.items ≡ x.now ∷ [] }
    ensures { Works (H.setting host.now) (return_work (H.setting host.now) xs.now.value.items (here frames.old) (slots_of frames.old))
        frames.old store.old frames.new store.new result }
{
    match &x.kind {
        ExprKind::Call(f, args) => begin_tail_call(frames, host, store, x.line, f, args),
        ExprKind::Method(a, name, args) => {
            begin_tail_method(frames, host, store, x.line, a, name, args)
        }
        _ => list_under(frames, host, store, Item::Return, xs),
    }
}

/// Begins a tail call, which counts a step as a call does.
fn begin_tail_call<H: Host>(
    frames: &mut Frames,
    host: &H,
    store: &mut Store,
    line: u32,
    f: &Rc<Expr>,
    args: &Rc<Vec<Expr>>,
) -> Result<Flow, AllocError>
    ensures { Works (H.setting host.now) (tail_begins line f.now.value args.now.value.items (here frames.old) (slots_of frames.old))
        frames.old store.old frames.new store.new result }
{
    if !store.count(1) {
        return Ok(Flow::Spent);
    }
    value_under(frames, host, store, Item::TailCallee(line, share(args)?), f)
}

/// Begins a tail call of a method, which counts a step as a call does.
fn begin_tail_method<H: Host>(
    frames: &mut Frames,
    host: &H,
    store: &mut Store,
    line: u32,
    object: &Rc<Expr>,
    name: &Bytes,
    args: &Rc<Vec<Expr>>,
) -> Result<Flow, AllocError>
    ensures { Works (H.setting host.now) (tail_method_begins (H.setting host.now) line object.now.value name.now args.now.value.items
        (here frames.old) (slots_of frames.old))
        frames.old store.old frames.new store.new result }
{
    if !store.count(1) {
        return Ok(Flow::Spent);
    }
    let copy = name.clone()?;
    value_under(
        frames,
        host,
        store,
        Item::TailMethod(line, copy, share(args)?),
        object,
    )
}

/// Values as `return` gives them; what gives no values is left.
fn return_of(lists: &mut Lists, given: Signal) -> Signal
    ensures { sign_of result ≡ return_sign (sign_of given) }
{
    match given {
        Signal::Nothing => Signal::Returned(lists.values.fresh()),
        Signal::One(value) => Signal::ReturnedOne(value),
        Signal::Many(values) => Signal::Returned(values),
        other => other,
    }
}

/// `return` gives the values of its list.
pub fn return_given(frames: &mut Frames) -> Result<Flow, AllocError>
    ensures { (S : Setting) → (store : StoreView) → Takes S Item.Return frames.old store frames.new store result }
{
    let given = mem::replace(&mut frames.given, Signal::Nothing);
    frames.given = return_of(&mut frames.lists, given);
    Ok(Flow::Went)
}

/// What a function returns whose last statement was a tail call that ended so.
fn returned_of(lists: &mut Lists, given: Signal) -> Signal
    ensures { sign_of result ≡ returned (sign_of given) }
{
    match given {
        Signal::Broke => Signal::Returned(lists.values.fresh()),
        other => return_of(lists, other),
    }
}

/// `return` gives what its tail call gave.
pub fn return_called(frames: &mut Frames) -> Result<Flow, AllocError>
    ensures { (S : Setting) → (store : StoreView) → Takes S Item.TailReturn frames.old store frames.new store result }
{
    let given = mem::replace(&mut frames.given, Signal::Nothing);
    frames.given = returned_of(&mut frames.lists, given);
    Ok(Flow::Went)
}
