//! Header fields, in the order in which they stand (RFC 9110, 5.3).

use crate::same_name;
use resty_base::{Bytes, Pair2};
use std::alloc::{AllocError, Global};
use std::marker::Model;

/// Header fields in order, which contracts see as a list of names with their values.
#[derive(Debug, Drop)]
pub struct Fields {
    items: Vec<Pair2>,
}

impl Model for Fields {
    ghost use Rattle.std.specs.Prelude.{List};
    ghost use Rattle.resty_base.specs.declared.names.Pair2.{Pair2};

    ghost Value = { List Pair2 };

    ghost view = { λ fields. fields.items.items };
}

impl Fields {
    ghost use Rattle.std.specs.Prelude.{◌≡◌, IfOk};
    ghost use Rattle.http_base.specs.FieldLists as lists;
    ghost use Rattle.http_base.specs.Lent.{texts};

    /// The fields that `items` holds; takes no memory.
    pub fn of(items: Vec<Pair2>) -> Fields
        ensures { result ≡ items.items }
    {
        Fields { items }
    }

    /// The fields in order.
    pub fn as_slice(&self) -> &[Pair2]
        ensures { result.now ≡ self.now }
    {
        self.items.as_slice()
    }

    /// The fields as a `Vec`; takes no memory.
    pub fn into_vec(self) -> Vec<Pair2>
        ensures { result.items ≡ self }
    {
        let Fields { items } = self;
        items
    }

    /// The values of this name in order, as parts of the fields.
    pub fn values_of(&self, alloc: Global, name: &[u8]) -> Result<Vec<&Bytes>, AllocError>
        ensures { IfOk result (λ values. texts values.items ≡ lists.values_of self.now name.now) }
    {
        let mut values = Vec::new(alloc);
        for field in &self.items {
            if same_name(&field.name, name) {
                values.push(&field.value)?;
            }
        }
        Ok(values)
    }

    /// Takes out the fields of this name; takes no memory.
    pub fn remove(&mut self, name: &[u8])
        ensures { self.new ≡ lists.without self.old name.now }
    {
        self.items.retain(|field| !same_name(&field.name, name));
    }
}
