//! How many bytes an item counts.

ghost use Rattle.std.specs.Prelude.{◌≡◌, ◌+◌, ◌<◌, ◌^◌, length};
ghost use Rattle.shared_rules.specs.Items.{value_size};

use resty_base::{Bytes, DictValue};

/// The bytes that an item of the key and the value counts.
pub(crate) fn size_of(key: &Bytes, value: &DictValue) -> u128
    ensures size { result ≡ length key.now + value_size value.now + 64 }
    ensures small { result < 2 ^ 66 }
{
    key.len() as u128 + value_size(value) + 64
}

fn value_size(value: &DictValue) -> u128
    ensures size { result ≡ value_size value.now }
    ensures small { result < 2 ^ 64 }
{
    match value {
        DictValue::Text(text) => text.len() as u128,
        DictValue::Number(_) => 8,
        DictValue::Truth(_) => 1,
    }
}
