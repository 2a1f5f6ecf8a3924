//! The types whose values share one metatable, and these metatables.

ghost use Rattle.std.specs.Prelude.{◌≡◌};
ghost use Rattle.lua_values.specs.StoreCalls.{type_metatable_of, with_type_metatable};

use crate::ObjectKind;

/// A type whose values share one metatable (Lua 5.1 Reference Manual, section 2.8): texts, and each kind of object.
#[derive(Clone, Copy)]
pub enum TypeKind {
    Text,
    Object(ObjectKind),
}

/// The metatables of these types: numbers of tables.
#[derive(Clone, Copy)]
pub struct TypeMetatables {
    pub text: Option<u32>,
    pub socket: Option<u32>,
    pub reader: Option<u32>,
    pub semaphore: Option<u32>,
    pub zone: Option<u32>,
}

impl TypeMetatables {
    /// No metatables.
    pub fn none() -> TypeMetatables
        ensures { result ≡ record { text = None; socket = None; reader = None; semaphore = None; zone = None } }
    {
        TypeMetatables {
            text: None,
            socket: None,
            reader: None,
            semaphore: None,
            zone: None,
        }
    }

    /// The metatable of a type.
    pub fn get(&self, kind: TypeKind) -> Option<u32>
        ensures { result ≡ type_metatable_of self.now kind }
    {
        match kind {
            TypeKind::Text => self.text,
            TypeKind::Object(ObjectKind::Socket) => self.socket,
            TypeKind::Object(ObjectKind::Reader) => self.reader,
            TypeKind::Object(ObjectKind::Semaphore) => self.semaphore,
            TypeKind::Object(ObjectKind::Zone) => self.zone,
        }
    }

    /// Gives a type this metatable, or none.
    pub fn set(&mut self, kind: TypeKind, meta: Option<u32>)
        ensures { self.new ≡ with_type_metatable self.old kind meta }
    {
        match kind {
            TypeKind::Text => self.text = meta,
            TypeKind::Object(ObjectKind::Socket) => self.socket = meta,
            TypeKind::Object(ObjectKind::Reader) => self.reader = meta,
            TypeKind::Object(ObjectKind::Semaphore) => self.semaphore = meta,
            TypeKind::Object(ObjectKind::Zone) => self.zone = meta,
        }
    }
}
