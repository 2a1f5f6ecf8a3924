//! The functions of the host that `ngx` is made of.

ghost use Rattle.std.specs.Prelude.{◌≡◌};

use lua_lib_base::texts_length;
use lua_values::{BYTES_OF_A_STEP, NativeOut, Natives, Store, Value};
use std::alloc::Global;

/// The functions of `ngx`, whose numbers are 0 to 122: 0 is `ngx.print`, 1 is `ngx.say`, and no text names the others yet. Each leaves its
/// answer to the outside.
#[derive(Debug, Drop)]
pub struct NgxNatives;

impl Natives for NgxNatives {
    ghost use Rattle.ngx_calls.specs.Natives.{ngx_count, ngx_meaning};

    ghost size = { λ _. ngx_count };

    ghost meaning = { λ _. ngx_meaning };

    fn count(&self) -> u32 {
        123
    }

    fn call(&self, _alloc: Global, _number: u32, args: &[Value], store: &mut Store) -> NativeOut {
        store.add_steps(texts_length(args) / BYTES_OF_A_STEP);
        NativeOut::Outside
    }
}
