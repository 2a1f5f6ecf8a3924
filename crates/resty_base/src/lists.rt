//! A list of byte strings.

use crate::Bytes;
use std::marker::Model;

/// A list of byte strings, which contracts see as a list of lists of bytes.
#[derive(Debug, Drop)]
pub struct ByteLists {
    items: Vec<Bytes>,
}

impl Model for ByteLists {
    ghost use Rattle.std.specs.Prelude.{List, ℕ};

    ghost Value = { List (List ℕ) };

    ghost view = { λ lists. lists.items.items };
}

impl ByteLists {
    ghost use Rattle.std.specs.Prelude.{◌≡◌};

    /// The list that `items` holds; takes no memory.
    pub fn of(items: Vec<Bytes>) -> ByteLists
        ensures { result ≡ items.items }
    {
        ByteLists { items }
    }

    /// The byte strings in order.
    pub fn as_slice(&self) -> &[Bytes]
        ensures { result.now ≡ self.now }
    {
        self.items.as_slice()
    }

    /// The list as a `Vec`; takes no memory.
    pub fn into_vec(self) -> Vec<Bytes>
        ensures { result.items ≡ self }
    {
        let ByteLists { items } = self;
        items
    }
}
