//! The events of metatables.

ghost use Rattle.std.specs.Prelude.{◌≡◌};
ghost use Rattle.lua_operators.specs.Events.{key_of};

/// What a metatable may have a handler or a field for (Lua 5.1 Reference Manual, 2.8 and 5.1).
#[derive(Clone, Copy, Debug, PartialEq, Eq)]
pub enum Event {
    Index,
    NewIndex,
    Call,
    Add,
    Sub,
    Mul,
    Div,
    Mod,
    Pow,
    Unm,
    Concat,
    Eq,
    Lt,
    Le,
    ToString,
    Metatable,
}

impl Event {
    /// Its key in a metatable.
    pub fn key(self) -> &'static [u8]
        ensures { result.now ≡ key_of self }
    {
        match self {
            Event::Index => b"__index",
            Event::NewIndex => b"__newindex",
            Event::Call => b"__call",
            Event::Add => b"__add",
            Event::Sub => b"__sub",
            Event::Mul => b"__mul",
            Event::Div => b"__div",
            Event::Mod => b"__mod",
            Event::Pow => b"__pow",
            Event::Unm => b"__unm",
            Event::Concat => b"__concat",
            Event::Eq => b"__eq",
            Event::Lt => b"__lt",
            Event::Le => b"__le",
            Event::ToString => b"__tostring",
            Event::Metatable => b"__metatable",
        }
    }
}
