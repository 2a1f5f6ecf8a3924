//! Why a text isn't a chunk of Lua.

ghost use Rattle.std.specs.Prelude.{◌≡◌};

use lua_lexer::LexFault;
use lua_parser::ParseFault;
use std::alloc::AllocError;

/// Why a text isn't a chunk of Lua: by its tokens or by their grammar.
#[derive(Clone, Copy, Debug, PartialEq, Eq)]
pub enum ModuleFault {
    Lex(LexFault),
    Parse(ParseFault),
    /// Out of memory.
    Memory,
}

impl From<LexFault> for ModuleFault {
    ghost use Rattle.std.specs.Prelude.{◌≡◌};
    ghost use Rattle.lua_modules.specs.Texts.{of_tokens};

    ghost from_gives = { λ below fault. fault ≡ of_tokens below };

    fn from(fault: LexFault) -> ModuleFault {
        match fault {
            LexFault::Memory => ModuleFault::Memory,
            fault => ModuleFault::Lex(fault),
        }
    }
}

impl From<ParseFault> for ModuleFault {
    ghost use Rattle.std.specs.Prelude.{◌≡◌};
    ghost use Rattle.lua_modules.specs.Texts.{of_grammar};

    ghost from_gives = { λ below fault. fault ≡ of_grammar below };

    fn from(fault: ParseFault) -> ModuleFault {
        match fault {
            ParseFault::Memory => ModuleFault::Memory,
            fault => ModuleFault::Parse(fault),
        }
    }
}

impl From<AllocError> for ModuleFault {
    ghost use Rattle.std.specs.Prelude.{◌≡◌};
    ghost use Rattle.lua_modules.specs.declared.faults.ModuleFault.TheVariants.{Memory};

    ghost from_gives = { λ below fault. fault ≡ Memory };

    fn from(_fault: AllocError) -> ModuleFault {
        ModuleFault::Memory
    }
}
