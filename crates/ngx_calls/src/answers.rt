//! What a call of `ngx` is given, as values.

ghost use Rattle.std.specs.Prelude.{IfOk};
ghost use Rattle.ngx_calls.specs.Answers.{values_of, IsGiven};

use lua_lib_base::{reserve_text, small_number};
use lua_values::{Store, Value, Values};
use resty_base::Bytes;
use std::alloc::{AllocError, Global};

/// What a call is given.
#[derive(Debug, Drop)]
pub enum Given {
    Nothing,
    One,
    /// Nil and this text.
    Fault(Bytes),
}

/// The values of what is given, whose texts are made; none where the store has no room for them, which is then as before.
pub fn give(alloc: Global, store: &mut Store, given: Given) -> Result<Option<Values>, AllocError>
    ensures { IfOk result (IsGiven (values_of given store.old.heap) store.old store.new) }
{
    match given {
        Given::Nothing => Ok(Some(Values::of(Vec::new(alloc)))),
        Given::One => Ok(Some(Values::of(vec![in alloc; Value::Number(small_number(1))]?))),
        Given::Fault(text) => {
            if reserve_text(store, text.len()).is_err() {
                return Ok(None);
            }
            Ok(Some(Values::of(vec![in alloc; Value::Nil, Value::Text(text)]?)))
        }
    }
}
