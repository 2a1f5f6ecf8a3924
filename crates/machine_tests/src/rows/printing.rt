//! What handlers of requests come to that print: their output calls, and how they end.

/// Handlers print their values.
pub(super) const VALUES: &str = "\
print(1, -2, \"a\") => \"1-2a\"; Ended
say(nil, true, false, null) => \"niltruefalsenull¶\"; Ended
say() print() => \"¶\"; \"\"; Ended
say(say(\"a\")) => \"a¶\"; \"1¶\"; Ended
say({\"a\", {1, {}, \"b\"}, true}, 2) => \"a1btrue2¶\"; Ended
local t = {1, 2} t[4] = 4 t.x = 5 print(t) => \"12\"; Ended";

/// Calls with arguments that can't be printed.
pub(super) const BAD_ARGUMENTS: &str = "\
say(\"a\", pcall) => Failed \"t.conf:1: bad argument #2 to 'say' (string expected, got function)\"
print({1, {say}}, {error}) => Failed \"t.conf:1: bad argument #1 to 'print' (string expected, got function)\"
say(pcall(print, {}, {error})) => \"falset.conf:1: bad argument #2 to 'print' (string expected, got function)¶\"; Ended";

/// Arrays that are too deep or hold too much.
pub(super) const BAD_REQUESTS: &str = "\
local t, i = {}, 1 while i < 200 do t, i = {t}, i + 1 end say(t) => \"¶\"; Ended
local t, i = {}, 1 while i < 201 do t, i = {t}, i + 1 end say(t) => Failed \"t.conf:1: bad request\"
local t = {} t[1] = t print(\"a\", say, t) => Failed \"t.conf:1: bad request\"";

/// An array of 999 times an array of 1,000 elements, which is a million values, and one value more.
pub(super) const MANY: &str = "\
local a, b, i = {}, {}, 0 while i < 999 do i = i + 1 a[i], b[i] = true, a end a[1000] = true print(b, 1) => Failed \"t.conf:1: bad request\"";

/// Output up to its limit, and after the end of the body.
pub(super) const LIMITS: &str = "\
big(64) print(t) local _, text = print(\"x\") print(\"\") error(text, 0) => [4194304 bytes]; \"\"; Failed \"output limit\"
big(65) local _, text = print(t) error(text, 0) => Failed \"output limit\"
big(63) print(t) local _, text = say(s) error(text, 0) => [4128768 bytes]; Failed \"output limit\"
over: local one, text = print(\"x\") error(text, 0) => Failed \"seen eof\"
over: local t = {} t[1] = t print(t) => Failed \"t.conf:1: bad request\"";

/// Ends after output.
pub(super) const ENDS: &str = "\
say(\"a\") print(\"b\") error(\"c\") => \"a¶\"; \"b\"; Failed \"t.conf:1: c\"
say(\"a\") error({}) => \"a¶\"; Failed table
print(\"a\") while true do end => \"a\"; Spent
return print(\"a\") => \"a\"; Ended";
