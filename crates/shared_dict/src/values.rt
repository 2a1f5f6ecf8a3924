//! Copies of values.

ghost use Rattle.std.specs.Prelude.{◌≡◌, IfOk, IsOk};
ghost use Rattle.shared_dict.specs.Values.{IsPlain};

use resty_base::DictValue;
use std::alloc::AllocError;

/// A copy of a value; a text is shared.
pub(crate) fn copy_of(value: &DictValue) -> Result<DictValue, AllocError>
    ensures copy { IfOk result (λ v. v ≡ value.now) }
    ensures succeeds { IsPlain value.now → IsOk result }
{
    match value {
        DictValue::Text(text) => Ok(DictValue::Text(text.clone()?)),
        DictValue::Number(n) => Ok(DictValue::Number(*n)),
        DictValue::Truth(b) => Ok(DictValue::Truth(*b)),
    }
}
