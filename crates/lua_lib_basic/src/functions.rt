//! The functions of the library that are built, with their numbers and names.

ghost use Rattle.std.specs.Prelude.{◌≡◌};
ghost use Rattle.lua_lib_basic.specs.Functions.{basic_name, basic_at, prelude_name, prelude_at, function_name, function_at};

// Numbers of the library never change, and as natives of a site they begin at 128. Those of functions that aren't built yet: 12 to 23 byte, char, find,
// format, gsub with a text, len, lower, match, rep, reverse, sub, upper; 24 to 28 concat, insert, maxn, remove, sort; 29 to 35 abs, ceil, floor, fmod, max,
// min, pow; 36 to 41 escape_uri, unescape_uri, encode_args, decode_args, encode_base64, decode_base64; 42 to 45 md5, md5_bin, sha1_bin, http_time; 47 and 48
// of gmatch; 49 to 51 of gsub with a function or a table; 52 gives a type of values its metatable.

/// A basic function (Lua 5.1 Reference Manual, 5.1) of the library: numbers 0 to 11.
#[derive(Clone, Copy, Debug, PartialEq, Eq)]
pub enum BasicFunction {
    GetMetatable,
    SetMetatable,
    Ipairs,
    Next,
    Pairs,
    RawEqual,
    RawGet,
    RawSet,
    Select,
    ToNumber,
    TypeName,
    Unpack,
}

impl BasicFunction {
    /// The function of a number of the library.
    pub fn at(number: u32) -> Option<BasicFunction>
        ensures { result ≡ basic_at number }
    {
        Some(match number {
            0 => BasicFunction::GetMetatable,
            1 => BasicFunction::SetMetatable,
            2 => BasicFunction::Ipairs,
            3 => BasicFunction::Next,
            4 => BasicFunction::Pairs,
            5 => BasicFunction::RawEqual,
            6 => BasicFunction::RawGet,
            7 => BasicFunction::RawSet,
            8 => BasicFunction::Select,
            9 => BasicFunction::ToNumber,
            10 => BasicFunction::TypeName,
            11 => BasicFunction::Unpack,
            _ => return None,
        })
    }

    /// Its name, as the texts of faults have it.
    pub fn name(self) -> &'static [u8]
        ensures { result.now ≡ basic_name self }
    {
        match self {
            BasicFunction::GetMetatable => b"getmetatable",
            BasicFunction::SetMetatable => b"setmetatable",
            BasicFunction::Ipairs => b"ipairs",
            BasicFunction::Next => b"next",
            BasicFunction::Pairs => b"pairs",
            BasicFunction::RawEqual => b"rawequal",
            BasicFunction::RawGet => b"rawget",
            BasicFunction::RawSet => b"rawset",
            BasicFunction::Select => b"select",
            BasicFunction::ToNumber => b"tonumber",
            BasicFunction::TypeName => b"type",
            BasicFunction::Unpack => b"unpack",
        }
    }
}

/// A function that the library's own texts alone call: numbers 46 and 53 to 55.
#[derive(Clone, Copy, Debug, PartialEq, Eq)]
pub enum PreludeFunction {
    /// What `ipairs` gives.
    IpairsStep,
    /// The global table.
    Globals,
    /// The argument of `require`.
    ModuleName,
    /// The table of the modules that a run has required.
    RunModules,
}

impl PreludeFunction {
    /// The function of a number of the library.
    pub fn at(number: u32) -> Option<PreludeFunction>
        ensures { result ≡ prelude_at number }
    {
        Some(match number {
            46 => PreludeFunction::IpairsStep,
            53 => PreludeFunction::Globals,
            54 => PreludeFunction::ModuleName,
            55 => PreludeFunction::RunModules,
            _ => return None,
        })
    }

    /// Its name, as the texts of faults have it: that of the function for which it is called.
    pub fn name(self) -> &'static [u8]
        ensures { result.now ≡ prelude_name self }
    {
        match self {
            PreludeFunction::IpairsStep => b"ipairs",
            PreludeFunction::Globals => b"_G",
            PreludeFunction::ModuleName => b"require",
            PreludeFunction::RunModules => b"require",
        }
    }
}

/// A function of the library.
#[derive(Clone, Copy, Debug, PartialEq, Eq)]
pub enum Function {
    Basic(BasicFunction),
    Prelude(PreludeFunction),
}

impl Function {
    /// The function of a number of the library, none where it isn't built.
    pub fn at(number: u32) -> Option<Function>
        ensures { result ≡ function_at number }
    {
        match BasicFunction::at(number) {
            Some(function) => Some(Function::Basic(function)),
            None => Some(Function::Prelude(PreludeFunction::at(number)?)),
        }
    }

    /// Its name.
    pub fn name(self) -> &'static [u8]
        ensures { result.now ≡ function_name self }
    {
        match self {
            Function::Basic(function) => function.name(),
            Function::Prelude(function) => function.name(),
        }
    }
}
