//! Laws of the text: each is the clause of a function that does nothing.
ghost use Rattle.std.specs.Prelude.{◌≡◌, ℕ, List};
ghost use Rattle.conf_text.specs.Items.{IsItems};
ghost use Rattle.conf_text.specs.declared.items.Item.{Item};

/// A law: a text has one list of items.
pub fn a_text_has_one_list_of_items()
    ensures { (text : List ℕ) (items others : List Item) → IsItems text items → IsItems text others → items ≡ others }
{}
