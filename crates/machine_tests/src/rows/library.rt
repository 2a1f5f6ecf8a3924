//! What programs come to that call functions of the library, with their steps and units.

/// Types, primitive equality and access, and metatables. That `getmetatable` gives the metatable of texts isn't shown, since `string` isn't there.
pub(super) const VALUES: &str = "\
return type(nil), type(1), type(print), type(type), type({}) => Done \"nil\", \"number\", \"nil\", \"function\", \"table\" | 22, 137
return type() => Failed \"t.conf:1: bad argument #1 to 'type' (value expected, got no value)\" | 5, 0
return rawequal(\"a\", \"a\"), rawequal({}, {}), pcall(rawequal, 1) => Done true, false, false, \
\"t.conf:1: bad argument #2 to 'rawequal' (value expected, got no value)\" | 18, 64
return rawget({5}, 1), pcall(rawget, 1, 1) => Done 5, false, \
\"t.conf:1: bad argument #1 to 'rawget' (table expected, got number)\" | 15, 64
local t = {} return rawset(t, \"k\", 7) == t, t.k, pcall(rawset, t, nil, 1) => Done true, 7, false, \"t.conf:1: table index is nil\" | 23, 64
return setmetatable({}, nil) ~= nil, pcall(setmetatable, {}, 1) => Done true, false, \
\"t.conf:1: bad argument #2 to 'setmetatable' (nil or table expected, got number)\" | 16, 64
return getmetatable(1), pcall(getmetatable) => Done nil, false, \
\"t.conf:1: bad argument #1 to 'getmetatable' (value expected, got no value)\" | 11, 0";

/// Going over tables.
pub(super) const TRAVERSAL: &str = "\
return next({}), next({a = 1}), next({1}, 9) => Done nil, \"a\", nil | 18, 160
local t = {a = 1, b = 2} t.a = nil return next(t) => Done \"b\", 2 | 17, 96
local r = \"\" for k, v in pairs({3, x = 4, 5}) do r = r .. k .. \"=\" .. v .. \" \" end return r => Done \"1=3 x=4 2=5 \" | 54, 371
local n = 0 for i, v in ipairs({1, 2, nil, 4}) do n = n + i * v end return n => Done 5 | 33, 128";

/// Arguments by their number, and numbers of texts.
pub(super) const LISTS_AND_NUMBERS: &str = "\
return select(\"#\"), select(\"#\", nil, nil), select(2, \"a\", \"b\", \"c\"), select(-1, \"a\", \"b\"), pcall(select, 0, 1) \
=> Done 0, 2, \"b\", \"b\", false, \"t.conf:1: bad argument #1 to 'select' (index out of range)\" | 33, 0
return tonumber(\" 12 \"), tonumber(\"0x1F\"), tonumber(\"1e2\"), tonumber(\"99999999999999\"), tonumber(\"100000000000000\"), tonumber({}) \
=> Done 12, 31, nil, 99999999999999, nil, nil | 26, 32
return tonumber(\"ff\", 16), tonumber(\"0xff\", 16), tonumber(\"8\", 8), tonumber(\"-1\", 2), tonumber(\"zz\", 36), pcall(tonumber, \"1\", 37) \
=> Done 255, 255, nil, nil, 1295, false, \"t.conf:1: bad argument #2 to 'tonumber' (base out of range)\" | 34, 0
return unpack({1, 2, 3}), unpack({1, 2, 3}, 2), unpack({1, nil, 3}, 1, 3) => Done 1, 2, 1, nil, 3 | 34, 352";
