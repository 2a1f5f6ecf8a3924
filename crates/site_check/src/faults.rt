//! Why a text is no site.

ghost use Rattle.std.specs.Prelude.{◌≡◌};
ghost use Rattle.site_check.specs.Texts as spec;

use conf::ConfFault;
use lua_lexer::LexFault;
use lua_parser::ParseFault;
use std::alloc::AllocFailed;

/// Why a text is no site: its configuration is refused, or a block of Lua is, by its tokens or by its grammar.
#[derive(Clone, Copy)]
pub enum CheckFault {
    Conf(ConfFault),
    Lex(LexFault),
    Parse(ParseFault),
    /// Out of memory.
    Memory,
}

impl From<ConfFault> for CheckFault {
    ghost use Rattle.std.specs.Prelude.{◌≡◌};
    ghost use Rattle.site_check.specs.Texts.{of_conf};

    ghost from_gives = { λ below fault. fault ≡ of_conf below };

    fn from(fault: ConfFault) -> CheckFault {
        match fault {
            ConfFault::Memory => CheckFault::Memory,
            fault => CheckFault::Conf(fault),
        }
    }
}

impl From<LexFault> for CheckFault {
    ghost use Rattle.std.specs.Prelude.{◌≡◌};
    ghost use Rattle.site_check.specs.Texts.{of_tokens};

    ghost from_gives = { λ below fault. fault ≡ of_tokens below };

    fn from(fault: LexFault) -> CheckFault {
        match fault {
            LexFault::Memory => CheckFault::Memory,
            fault => CheckFault::Lex(fault),
        }
    }
}

impl From<ParseFault> for CheckFault {
    ghost use Rattle.std.specs.Prelude.{◌≡◌};
    ghost use Rattle.site_check.specs.Texts.{of_grammar};

    ghost from_gives = { λ below fault. fault ≡ of_grammar below };

    fn from(fault: ParseFault) -> CheckFault {
        match fault {
            ParseFault::Memory => CheckFault::Memory,
            fault => CheckFault::Parse(fault),
        }
    }
}

impl<T: Drop> From<AllocFailed<T>> for CheckFault {
    ghost use Rattle.std.specs.Prelude.{◌≡◌};
    ghost use Rattle.site_check.specs.declared.faults.CheckFault.TheVariants.{Memory};

    ghost from_gives = { λ _ fault. fault ≡ Memory };

    fn from(_error: AllocFailed<T>) -> CheckFault {
        CheckFault::Memory
    }
}

/// The line of a configuration's fault, 0 of out of memory.
fn conf_line(fault: ConfFault) -> usize
    ensures { result ≡ spec.conf_line fault }
{
    match fault {
        ConfFault::At(line)
        | ConfFault::Unknown(line)
        | ConfFault::Twice(line)
        | ConfFault::Value(line)
        | ConfFault::Place(line)
        | ConfFault::Block(line) => line,
        ConfFault::Memory => 0,
    }
}

/// The line of a fault of tokens, 0 of out of memory.
fn lex_line(fault: LexFault) -> u32
    ensures { result ≡ spec.lex_line fault }
{
    match fault {
        LexFault::BadByte(line)
        | LexFault::OpenString(line)
        | LexFault::OpenComment(line)
        | LexFault::BadEscape(line)
        | LexFault::Fraction(line)
        | LexFault::Range(line)
        | LexFault::TooLong(line) => line,
        LexFault::Memory => 0,
    }
}

/// The line of a fault of the grammar, 0 of out of memory.
fn parse_line(fault: ParseFault) -> u32
    ensures { result ≡ spec.parse_line fault }
{
    match fault {
        ParseFault::At(line)
        | ParseFault::Depth(line)
        | ParseFault::Locals(line)
        | ParseFault::Upvalues(line)
        | ParseFault::Ambiguous(line)
        | ParseFault::BreakOutside(line)
        | ParseFault::VarargOutside(line) => line,
        ParseFault::Memory => 0,
    }
}

/// What is said of a configuration's fault.
#[tactic(auto, unfolding(crate::specs::Texts::conf_text))]
fn conf_text(fault: ConfFault) -> &'static [u8]
    ensures { result.now ≡ spec.conf_text fault }
{
    match fault {
        ConfFault::At(_) => b"syntax error",
        ConfFault::Unknown(_) => b"unknown directive",
        ConfFault::Twice(_) => b"given twice",
        ConfFault::Value(_) => b"bad value",
        ConfFault::Place(_) => b"not allowed here",
        ConfFault::Block(_) => b"lua block is not closed",
        ConfFault::Memory => b"out of memory",
    }
}

/// What is said of a fault of tokens.
#[tactic(auto, unfolding(crate::specs::Texts::lex_text))]
fn lex_text(fault: LexFault) -> &'static [u8]
    ensures { result.now ≡ spec.lex_text fault }
{
    match fault {
        LexFault::BadByte(_) => b"lua: BadByte",
        LexFault::OpenString(_) => b"lua: OpenString",
        LexFault::OpenComment(_) => b"lua: OpenComment",
        LexFault::BadEscape(_) => b"lua: BadEscape",
        LexFault::Fraction(_) => b"lua: Fraction",
        LexFault::Range(_) => b"lua: Range",
        LexFault::TooLong(_) => b"lua: TooLong",
        LexFault::Memory => b"out of memory",
    }
}

/// What is said of a fault of the grammar.
#[tactic(auto, unfolding(crate::specs::Texts::parse_text))]
fn parse_text(fault: ParseFault) -> &'static [u8]
    ensures { result.now ≡ spec.parse_text fault }
{
    match fault {
        ParseFault::At(_) => b"lua: At",
        ParseFault::Depth(_) => b"lua: Depth",
        ParseFault::Locals(_) => b"lua: Locals",
        ParseFault::Upvalues(_) => b"lua: Upvalues",
        ParseFault::Ambiguous(_) => b"lua: Ambiguous",
        ParseFault::BreakOutside(_) => b"lua: BreakOutside",
        ParseFault::VarargOutside(_) => b"lua: VarargOutside",
        ParseFault::Memory => b"out of memory",
    }
}

impl CheckFault {
    /// The line, from 1; out of memory has the line 0.
    pub fn line(self) -> usize
        ensures { result ≡ spec.line_of self }
    {
        match self {
            CheckFault::Conf(fault) => conf_line(fault),
            CheckFault::Lex(fault) => lex_line(fault) as usize,
            CheckFault::Parse(fault) => parse_line(fault) as usize,
            CheckFault::Memory => 0,
        }
    }

    /// What is said of it.
    #[tactic(auto, unfolding(crate::specs::Texts::text_of))]
    pub fn text(self) -> &'static [u8]
        ensures { result.now ≡ spec.text_of self }
    {
        match self {
            CheckFault::Conf(fault) => conf_text(fault),
            CheckFault::Lex(fault) => lex_text(fault),
            CheckFault::Parse(fault) => parse_text(fault),
            CheckFault::Memory => b"out of memory",
        }
    }
}
