//! Header fields that a program sets.
ghost use Rattle.std.specs.Prelude.{◌≡◌, ◌++◌, length, IsTrue, IsFalse, IfOk, OnOk, OnErr, IsErrOf};
ghost use Rattle.http_base.specs.FieldLists as lists;
ghost use Rattle.request_api.specs.Setting as spec;

use crate::ReqFault;
use crate::names::{are_values, is_name};
use http_base::{Fields, same_name};
use resty_base::{Bytes, Pair2};
use std::alloc::{AllocError, Global};
use std::mem;

/// How many fields there may be after some were set.
const FIELD_LIMIT: usize = 1_000;

/// Sets the fields of this name: one for each value, after all others. No value takes them out.
pub(crate) fn set_fields(
    alloc: Global,
    fields: &mut Fields,
    name: &Bytes,
    values: &[Bytes],
) -> Result<(), ReqFault>
    ensures done { OnOk result (fields.new ≡ spec.with_values fields.old name.now values.now) }
    ensures allowed { OnOk result (IsFalse (spec.is_refused fields.old name.now values.now)) }
    ensures refused { IsErrOf result ReqFault.BadRequest → IsTrue (spec.is_refused fields.old name.now values.now) }
    ensures kept { OnErr result (fields.new ≡ fields.old) }
{
    if !is_name(name) || !are_values(values) || is_past_limit(fields, name, values) {
        return Err(ReqFault::BadRequest);
    }
    let lines = fields_of(alloc, name, values)?;
    replace(alloc, fields, name, lines)?;
    Ok(())
}

/// Whether there would be too many fields with these.
fn is_past_limit(fields: &Fields, name: &[u8], values: &[Bytes]) -> bool
    ensures { result ≡ spec.is_past_limit fields.now name.now values.now }
{
    count_others(fields.as_slice(), name).saturating_add(values.len()) > FIELD_LIMIT
}

/// How many of the fields have another name.
fn count_others(fields: &[Pair2], name: &[u8]) -> usize
    ensures { result ≡ length (lists.without fields.now name.now) }
{
    let mut count = 0;
    for field in fields {
        if !same_name(&field.name, name) {
            count += 1;
        }
    }
    count
}

/// A field of this name for each value; they share the name and the values.
fn fields_of(alloc: Global, name: &Bytes, values: &[Bytes]) -> Result<Vec<Pair2>, AllocError>
    ensures { IfOk result (λ fields. fields.items ≡ spec.fields_of name.now values.now) }
{
    let mut fields = Vec::with_capacity(alloc, values.len())?;
    for value in values {
        fields.push(Pair2 {
            name: name.clone()?,
            value: value.clone()?,
        })?;
    }
    Ok(fields)
}

/// Puts `more` at the end, in place of the fields of this name.
fn replace(
    alloc: Global,
    fields: &mut Fields,
    name: &[u8],
    more: Vec<Pair2>,
) -> Result<(), AllocError>
    ensures done { OnOk result (fields.new ≡ lists.without fields.old name.now ++ more.items) }
    ensures kept { OnErr result (fields.new ≡ fields.old) }
{
    let mut items = mem::replace(fields, Fields::of(Vec::new(alloc))).into_vec();
    let replaced = replace_items(&mut items, name, more);
    *fields = Fields::of(items);
    replaced
}

/// The same in a `Vec`.
fn replace_items(
    items: &mut Vec<Pair2>,
    name: &[u8],
    mut more: Vec<Pair2>,
) -> Result<(), AllocError>
    ensures done { OnOk result (items.new.items ≡ lists.without items.old.items name.now ++ more.items) }
    ensures kept { OnErr result (items.new.items ≡ items.old.items) }
{
    items.reserve(more.len())?;
    items.retain(|field| !same_name(&field.name, name));
    items.append(&mut more)
}
