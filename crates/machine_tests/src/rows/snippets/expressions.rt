//! Expressions: small texts of plain Lua, and what Lua 5.1 itself makes of them.

/// Expressions give what lua gives.
pub(in crate::rows) const EXPRESSIONS: &str = "\
return 1, nil, \"a\", true, false => Done 1, nil, \"a\", true, false
return 2 + 3 * 4 - 1 => Done 13
return (2 + 3) * 4 => Done 20
return 2 ^ 3 ^ 2, -2 ^ 2, (-2) ^ 2, 2 ^ -0 => Done 512, -4, 4, 1
return 7 % 3, -7 % 3, 7 % -3, -7 % -3, 6 % 3 => Done 1, 2, -2, -1, 0
return 12 / 4, -12 / 4, 0 / 5 => Done 3, -3, 0
return 1 - 2 - 3, 2 * 3 % 4, 100 / 5 / 2 => Done -4, 2, 10
return 0x10, 0xff, 0xAbC, 007 => Done 16, 255, 2748, 7
return 99999999999999 - 1, -99999999999999 + 1, 9999999 * 9999999 => Done 99999999999998, -99999999999998, 99999980000001
return \"10\" + 5, \"3\" * \"4\", 10 - \"2\", -\"7\", \"0x10\" + 0, \" 5 \" + 1 => Done 15, 12, 8, -7, 16, 6
return 10 .. 20, 1 .. \"\", \"a\" .. 1 .. \"b\", -1 .. \"\" => Done \"1020\", \"1\", \"a1b\", \"-1\"
return \"a\" .. \"b\" .. \"c\", \"\" .. \"\", (\"x\" .. \"y\") .. \"z\" => Done \"abc\", \"\", \"xyz\"
return \"a\" .. 1 + 2 .. \"b\", 2 .. 3 == \"23\" => Done \"a3b\", true
return #\"\", #\"abc\", #\"a\\0b\", #\"\\n\" => Done 0, 3, 3, 1
return not nil, not 0, not \"\", not false, not not 1 => Done true, false, false, true, true
return nil and 1, false and 1, 1 and 2, nil or 1, false or nil, 1 or 2 => Done nil, false, 2, 1, nil, 1
return 1 and nil or 2, false or false, nil == false, nil and nil => Done 2, false, false, nil
return 1 < 2, 2 < 1, 1 <= 1, 2 >= 3, 3 > 2, 1 ~= 2, 1 == 1 => Done true, false, true, false, true, true, true
return \"a\" < \"b\", \"B\" < \"a\", \"a\" < \"ab\", \"\" < \"a\", \"b\" <= \"a\", \"10\" < \"9\", \"a\" >= \"a\" => Done true, true, true, true, false, \
true, true
return 1 == \"1\", \"1\" == 1, nil == nil, {} == {}, \"a\" == \"a\", true ~= 1 => Done false, false, true, false, true, true
return 1 + 1 == 2 and 2 * 2 ~= 5 or \"no\", not 1 == 2, not (1 == 2) => Done true, false, true
return 1 or error(\"x\"), nil and error(\"x\") => Done 1, nil
return 1 < 2 == true, \"a\" .. \"b\" == \"ab\", -3 + 5 < 3 and \"y\" or \"n\" => Done true, true, \"y\"
return -(-5), - -5, -(2 + 3), not not nil => Done 5, 5, -5, false
return \"\\65\\066|\\\"|'|\\\\\", 'a\\'b\"c', #\"a\\¶b\", #\"\\a\\t\\n\" => Done \"AB|\"|'|\\\", \"a'b\"c\", 3, 3
return [[a]b]], [==[x]]y]==], [[¶first]], #[[¶¶]] => Done \"a]b\", \"x]]y\", \"first\", 1
return \"a\" --[[ in the middle ]] .. \"b\" -- at the end => Done \"ab\"
return \"one\" --[==[ over¶lines ]] ]==], 2 => Done \"one\", 2
return (1), (\"a\"), (nil), ((2)) => Done 1, \"a\", nil, 2
return type(1), type(\"a\"), type(nil), type(true), type({}), type(type) => Done \"number\", \"string\", \"nil\", \"boolean\", \"table\", \"function\"
return \"back\\\\slash|\\39|\\0650\" => Done \"back\\slash|'|A0\"
return 5 - -3, 5 - - -3, 2 ^ 10, 10 ^ 13, 0 ^ 0, 1 ^ 100 => Done 8, 2, 1024, 10000000000000, 1, 1
return 1 .. 2 .. 3, (1 .. 2) + 1, \"3\" + 1 .. \"4\" => Done \"123\", 13, \"44\"
return 8 % 3 ^ 2, -3 % 5, 2 * -3, 7 - 2 .. \"\" => Done 8, 2, -6, \"5\"
return 99999999999999, -99999999999999, 1000000 * 1000000 => Done 99999999999999, -99999999999999, 1000000000000";
