//! How sites of Lua start, and what their runs come to then.
use super::sites::hold_sites;

/// A run's globals are its own, those of init show through, and what init left is frozen.
pub(super) const GLOBALS: &str = "\
~ x = 1 return x, rawget(_G, \"x\"), rawget(_G, \"pairs\"), _G._G == _G => Done 1, 1, nil, true | 23, 32
~ return _VERSION, getmetatable(_G).__index.pairs == pairs => Done \"Lua 5.1\", true | 16, 0
~ ngx.x = 1 => Failed \"t.conf:2: attempt to modify a frozen table\"
~ print(1) => Failed \"t.conf:2: attempt to call a nil value\"
v = 7 ~ return v, rawget(_G, \"v\") => Done 7, nil
t = {x = 5, {6}} ~ return t.x, t[1][1] => Done 5, 6
t = {} ~ t.x = 1 => Failed \"t.conf:2: attempt to modify a frozen table\"
f = function() n = (n or 0) + 1 return n end ~ n = 1 return n => Done 1 | 6, 32
n = 5 f = function() n = n + 1 return n end ~ return f(), f(), n => Done 6, 7, 7 | 26, 32
local n = 0 f = function() return function() n = n + 1 end end ~ local c = f() return c() => Failed \"t.conf:1: attempt to modify a frozen variable\"";

/// Modules that a run requires, that init required, and that aren't there.
pub(super) const MODULES_REQUIRED: &str = "\
~ return pcall(require, \"no\") => Done false, \"t.conf:2: module 'no' not found\" | 53, 66
~ require(1) => Failed \"t.conf:2: module '1' not found\"
~ local m = require \"m\" return m == require \"m\", m.name, m.k, require \"m\".k => Done true, \"m\", 1, 1 | 159, 160
~ return require \"a.b\", require \"a.b\", require \"n\" => Done false, false, true | 164, 96
~ return pcall(require, \"e\") => Done false, \"lua/e.lua:1: bad\" | 60, 0
require \"m\" ~ local m = require \"m\" m.x = 1 => Failed \"t.conf:2: attempt to modify a frozen table\"
v = require \"m\" ~ return k, require(\"m\").k, require \"m\" == v => Done 1, 1, true | 67, 0
~ return require(\"z\")(5) => Done \"number\" | 73, 54
~ return require \"two\" == require \"m\" => Done true
require \"two\" ~ return require \"two\" == require \"m\" => Done true";

/// Inits that refuse the start.
pub(super) const REFUSED: &str = "\
error(\"bad\") ~ return 1 => Init t.conf:1: bad
error(\"bad\", 0) ~ return 1 => Init bad
error({}) ~ return 1 => Init unknown reason
error() ~ return 1 => Init unknown reason
while true do end ~ return 1 => Init step budget of 1000000 spent
pcall(function() while true do end end) ~ return 1 => Init step budget of 1000000 spent
ngx.say(1) ~ return 1 => Init API disabled in the context of init_by_lua*
require \"e\" ~ return 1 => Init lua/e.lua:1: bad
local s = \"1234567890123456\" while true do s = s .. s end ~ return 1 => Init t.conf:1: not enough memory (storage limit)";

#[test]
fn a_prelude_that_fails_refuses_the_start_before_init(rt: HostRuntime) {
    let rows = "error(\"init\") ~ return 1 => Init no";
    hold_sites(&rt, rt.alloc(), "local N = ... N[3](\"no\", 0)", rows);
    let rows = "return 1 => Init step budget of 1000000 spent";
    hold_sites(&rt, rt.alloc(), "while true do end", rows);
    let rows = "return 1 => Init API disabled in the context of init_by_lua*";
    hold_sites(&rt, rt.alloc(), "local N = ... N[6](1)", rows);
}
