//! Table constructors (Lua 5.1 Reference Manual, 2.5.7).

ghost use Rattle.std.specs.Prelude.{◌≡◌};
ghost use Rattle.lua_meaning.specs.Setting.{Setting};
ghost use Rattle.lua_meaning.specs.Tables.{constructor_work};
ghost use Rattle.lua_frames.specs.Frames.{here, slots_of};
ghost use Rattle.lua_frames.specs.Follows.{Works};

use lua_ast::{Program, TableItem};
use lua_frames::{Constructor, Flow, Frames, Item, give_nothing, raise_fault, share, wait};
use lua_operators::Fault;
use lua_values::{Store, StoreFault};
use std::alloc::AllocError;
use std::rc::Rc;

/// Makes a new table, whose items wait to be evaluated.
pub(crate) fn begin_table(
    frames: &mut Frames,
    program: &Program,
    store: &mut Store,
    line: u32,
    items: &Rc<Vec<TableItem>>,
) -> Result<Flow, AllocError>
    ensures { (S : Setting) → S.program ≡ program.now
        → Works S (constructor_work S line items.now.value.items (here frames.old) (slots_of frames.old)) frames.old store.old frames.new store.new result }
{
    match store.make_table() {
        Ok(table) => {
            let items = share(items)?;
            let next = Item::Items(Constructor {
                line,
                table,
                number: 1,
                items,
                next: 0,
            });
            wait(frames, next)?;
            give_nothing(frames)
        }
        Err(StoreFault::Full) => raise_fault(frames, program, line, Fault::StorageLimit),
        Err(_) => Err(AllocError),
    }
}
