//! The item that takes what is given.

ghost use Rattle.lua_frames.specs.Follows.{Takes};

use lua_frames::{Flow, Frames, Host, Item};
use lua_values::Store;
use lua_vm_calls::{arguments, call, callee, tail_arguments, tail_callee};
use lua_vm_expressions::go_on_with_list;
use lua_vm_loops::{
    counted, for_from, for_step, for_to, iterate, iterated, passed, repeated, turned, until,
    while_test,
};
use lua_vm_operators::{and_then, binary, first, key, or_else, right, truth, unary};
use lua_vm_statements::{
    arm, assign, assign_to_slot, discard, locals, rest, return_called, return_given, stores,
    target_at, target_key,
};
use lua_vm_tables::{
    at, item_at_key, item_at_number, item_key, items_at_numbers, method, method_arguments,
    method_callee, next_items, tail_method, tail_method_arguments, tail_method_callee,
};
use std::alloc::AllocError;

/// An item, taken off the innermost call, does its work with what is given.
pub(crate) fn apply<H: Host>(
    frames: &mut Frames,
    host: &H,
    store: &mut Store,
    item: Item,
) -> Result<Flow, AllocError>
    ensures { Takes (H.setting host.now) item frames.old store.old frames.new store.new result }
{
    match item {
        Item::Call(line, f, args) => call(frames, host, store, line, f.into_inner(), args),
        Item::Right(line, operator, b) => right(frames, host, store, line, operator, b),
        Item::Operate(line, operator, a) => binary(frames, host, store, line, operator, a),
        Item::Unary(line, operator) => unary(frames, host, store, line, operator),
        Item::AndThen(b) => and_then(frames, host, store, b),
        Item::OrElse(b) => or_else(frames, host, store, b),
        Item::First => first(frames),
        Item::Truth(wanted) => truth(frames, wanted),
        Item::Callee(line, args) => callee(frames, host, store, line, args),
        Item::Arguments(line, f) => arguments(frames, host, store, line, f),
        Item::Key(line, b) => key(frames, host, store, line, b),
        Item::At(line, value) => at(frames, host, store, line, value),
        Item::Method(line, name, args) => method(frames, host, store, line, name, args),
        Item::MethodCallee(line, object, args) => {
            method_callee(frames, host, store, line, object, args)
        }
        Item::MethodArguments(line, f, object) => {
            method_arguments(
                frames,
                host,
                store,
                line,
                f.into_inner(),
                object.into_inner(),
            )
        }
        Item::More(xs, next, done) => go_on_with_list(frames, host, store, xs, next, done),
        Item::Locals(slots) => locals(frames, slots),
        Item::Discard => discard(frames),
        Item::Return => return_given(frames),
        Item::TailCallee(line, args) => tail_callee(frames, host, store, line, args),
        Item::TailArguments(line, f) => tail_arguments(frames, host, store, line, f),
        Item::TailMethod(line, name, args) => tail_method(frames, host, store, line, name, args),
        Item::TailMethodCallee(line, object, args) => {
            tail_method_callee(frames, host, store, line, object, args)
        }
        Item::TailMethodArguments(line, f, object) => {
            tail_method_arguments(
                frames,
                host,
                store,
                line,
                f.into_inner(),
                object.into_inner(),
            )
        }
        Item::TailReturn => return_called(frames),
        Item::Rest(stmts, next) => rest(frames, host, store, stmts, next),
        Item::Arm(arms, next, last) => arm(frames, host, store, arms, next, last),
        Item::While(test, body) => while_test(frames, store, test, body),
        Item::Turned(test, body) => turned(frames, host, store, test, body),
        Item::Repeated(body, test) => repeated(frames, host, store, body, test),
        Item::Until(body, test) => until(frames, store, body, test),
        Item::ForFrom(bounds) => for_from(frames, host, store, bounds),
        Item::ForTo(bounds, from) => for_to(frames, host, store, bounds, from),
        Item::ForStep(bounds, from, to) => for_step(frames, host, store, bounds, from, to),
        Item::Counted(counter) => counted(frames, host.program(), store, counter),
        Item::Iterate(line, slots, body) => iterate(frames, host, store, line, slots, body),
        Item::Iterated(iteration) => iterated(frames, store, iteration),
        Item::Passed(iteration, control) => passed(frames, host, store, iteration, control),
        Item::Assign(targets) => assign(frames, host, store, targets),
        Item::AssignSlot(line, i) => assign_to_slot(frames, host, store, line, i),
        Item::TargetKey(line, b, left) => target_key(frames, host, store, line, b, left),
        Item::TargetAt(line, object, left) => {
            target_at(
                frames,
                host,
                store,
                line,
                object.into_inner(),
                left.into_inner(),
            )
        },
        Item::Stores(targets, values) => stores(frames, host, store, targets, values),
        Item::Items(c) => next_items(frames, host, store, c),
        Item::ItemKey(c) => item_key(frames, host, store, c),
        Item::ItemAtKey(c, key) => item_at_key(frames, host, store, c, key.into_inner()),
        Item::ItemAtNumber(c) => item_at_number(frames, host, store, c),
        Item::ItemsAtNumbers(c) => items_at_numbers(frames, host, store, c),
    }
}
