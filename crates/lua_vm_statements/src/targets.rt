//! The targets of assignments, which are evaluated before the values (Lua 5.1 Reference Manual, 2.4.3).

ghost use Rattle.std.specs.Prelude.{◌≡◌, ◌∷◌, [], map, IfOk};
ghost use Rattle.lua_meaning.specs.Assignments.{assignment_work};
ghost use Rattle.lua_frames.specs.Items.{target_of, targets_left};
ghost use Rattle.lua_frames.specs.Frames.{here, slots_of};
ghost use Rattle.lua_frames.specs.Follows.{Takes, Works};
ghost use Rattle.lua_vm_statements.specs.Targets.{Begins};

use lua_ast::{Expr, ExprKind};
use lua_frames::{Assignment, Flow, Frames, Host, Item, Target, element, share, take_first};
use lua_values::{Store, Value};
use lua_vm_expressions::{list_under, value_under};
use resty_base::Boxed;
use std::alloc::AllocError;
use std::rc::Rc;

/// Begins an assignment: its targets, each of which counts a step, and then its values.
pub(crate) fn begin_assignment<H: Host>(
    frames: &mut Frames,
    host: &H,
    store: &mut Store,
    targets: &Rc<Vec<Expr>>,
    xs: &Rc<Vec<Expr>>,
) -> Result<Flow, AllocError>
    ensures { Works (H.setting host.now) (assignment_work (H.setting host.now) targets.now.value.items xs.now.value.items (here frames.old)
        (slots_of frames.old))
        frames.old store.old frames.new store.new result }
{
    match targets.as_slice() {
        [target] => begin_one(frames, host, store, targets, target, xs),
        _ => begin_targets(frames, host, store, targets, xs),
    }
}

/// Begins an assignment to one target; to a slot it makes no list of targets.
fn begin_one<H: Host>(
    frames: &mut Frames,
    host: &H,
    store: &mut Store,
    targets: &Rc<Vec<Expr>>,
    target: &Expr,
    xs: &Rc<Vec<Expr>>,
) -> Result<Flow, AllocError>
    requires { targets.now.value.items ≡ target.now ∷ [] }
    ensures { Works (H.setting host.now) (assignment_work (H.setting host.now) targets.now.value.items xs.now.value.items (here frames.old)
        (slots_of frames.old))
        frames.old store.old frames.new store.new result }
{
    match &target.kind {
        ExprKind::Slot(i) => {
            if !store.count(1) {
                return Ok(Flow::Spent);
            }
            list_under(frames, host, store, Item::AssignSlot(target.line, *i), xs)
        }
        _ => begin_targets(frames, host, store, targets, xs),
    }
}

/// Begins an assignment to targets that aren't a slot alone.
fn begin_targets<H: Host>(
    frames: &mut Frames,
    host: &H,
    store: &mut Store,
    targets: &Rc<Vec<Expr>>,
    xs: &Rc<Vec<Expr>>,
) -> Result<Flow, AllocError>
    ensures { Works (H.setting host.now) (assignment_work (H.setting host.now) targets.now.value.items xs.now.value.items (here frames.old)
        (slots_of frames.old))
        frames.old store.old frames.new store.new result }
{
    let found = Vec::new(frames.alloc);
    let targets = share(targets)?;
    let values = share(xs)?;
    find_targets(
        frames,
        host,
        store,
        Assignment {
            found,
            targets,
            next: 0,
            values,
        },
    )
}

/// Goes on with the targets of an assignment that are left, and then with its values.
fn find_targets<H: Host>(
    frames: &mut Frames,
    host: &H,
    store: &mut Store,
    assignment: Assignment,
) -> Result<Flow, AllocError>
    ensures { Works (H.setting host.now) (targets_left (H.setting host.now) assignment (map target_of assignment.found.items) (here frames.old)
        (slots_of frames.old))
        frames.old store.old frames.new store.new result }
{
    let Assignment {
        found,
        targets,
        next,
        values,
    } = assignment;
    let mut found = found;
    let mut next = next;
    while let Some(target) = element(&targets, next) {
        if !store.count(1) {
            return Ok(Flow::Spent);
        }
        match begin_target(store, target)? {
            Begun::Found(target) => found.push(target)?,
            Begun::Index(line, object, key) => {
                let left = Assignment {
                    found,
                    targets,
                    next: next + 1,
                    values,
                };
                let left = Boxed::new(frames.alloc, left)?;
                return value_under(
                    frames,
                    host,
                    store,
                    Item::TargetKey(line, key, left),
                    &object,
                );
            }
        }
        next += 1;
    }
    list_under(frames, host, store, Item::Assign(found), &values)
}

/// How the evaluation of a target begins.
#[derive(Drop)]
enum Begun {
    /// It takes none.
    Found(Target),
    /// An index at a line, of this object at this key.
    Index(u32, Rc<Expr>, Rc<Expr>),
}

/// Begins a target.
fn begin_target(store: &Store, target: &Expr) -> Result<Begun, AllocError>
    ensures { IfOk result (λ begun. Begins target.now store.now begun) }
{
    match &target.kind {
        ExprKind::Slot(i) => Ok(Begun::Found(Target::Slot(target.line, *i))),
        ExprKind::Captured(i) => Ok(Begun::Found(Target::Captured(target.line, *i))),
        ExprKind::Global(name) => Ok(Begun::Found(Target::AtKey(
            target.line,
            Value::Table(store.globals()),
            Value::Text(name.clone()?),
        ))),
        ExprKind::Index(object, key) => {
            let object = share(object)?;
            Ok(Begun::Index(target.line, object, share(key)?))
        }
        _ => Ok(Begun::Found(Target::Nowhere)),
    }
}

/// The object of a target is there, and its key is evaluated.
pub fn target_key<H: Host>(
    frames: &mut Frames,
    host: &H,
    store: &mut Store,
    line: u32,
    b: Rc<Expr>,
    left: Boxed<Assignment>,
) -> Result<Flow, AllocError>
    ensures { Takes (H.setting host.now) (Item.TargetKey line b left) frames.old store.old frames.new store.new result }
{
    match take_first(frames) {
        None => Ok(Flow::Went),
        Some(object) => {
            let object = Boxed::new(frames.alloc, object)?;
            value_under(frames, host, store, Item::TargetAt(line, object, left), &b)
        }
    }
}

/// The key of a target is there, and the targets after it are evaluated.
pub fn target_at<H: Host>(
    frames: &mut Frames,
    host: &H,
    store: &mut Store,
    line: u32,
    object: Value,
    left: Assignment,
) -> Result<Flow, AllocError>
    ensures { Takes (H.setting host.now) (Item.TargetAt line object left) frames.old store.old frames.new store.new result }
{
    match take_first(frames) {
        None => Ok(Flow::Went),
        Some(key) => {
            let Assignment {
                found,
                targets,
                next,
                values,
            } = left;
            let mut found = found;
            found.push(Target::AtKey(line, object, key))?;
            find_targets(
                frames,
                host,
                store,
                Assignment {
                    found,
                    targets,
                    next,
                    values,
                },
            )
        }
    }
}
