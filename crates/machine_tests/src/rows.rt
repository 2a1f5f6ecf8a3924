//! What small programs come to, with their steps and the units that they take: statements and calls (`branches`, `calls`, `iterations`, `library`, and here),
//! links, loops, operators, protected calls and tables (files of these names), plain Lua (`snippets`), handlers (`printing`) and sites (`starting`).
mod branches;
mod calls;
mod handlers;
mod iterations;
mod library;
mod links;
mod loops;
mod natives;
mod operators;
mod parks;
mod printing;
mod programs;
mod protected;
mod sites;
mod snippets;
mod starting;
mod tables;
mod toy;

use handlers::hold_handlers;
use natives::WaitAndId;
use programs::{hold, hold_answers};
use sites::hold_sites;
use std::alloc::Global;
use std::process::Abort;

/// Programs come to their values.
const EXPRESSIONS: &str = "\
return 1 + 2 => Done 3 | 5, 0
return -(-5), not nil, #\"abc\" => Done 5, true, 3 | 10, 0
return 1 and nil or 2 => Done 2 | 7, 0
do local x = 1 end return (id(1, 2)) => Done 1 | 11, 0
return \"12345678901234567890123456789012\" .. \"x\" => Done \"12345678901234567890123456789012x\" | 6, 49
return 1 % 0 => Failed \"t.conf:1: attempt to divide by zero\" | 5, 0
x() => Failed \"t.conf:1: attempt to call a nil value\" | 5, 0
return nil +¶1 => Failed \"t.conf:1: attempt to perform arithmetic on a nil value\" | 5, 0
return #nil => Failed \"t.conf:1: attempt to get length of a nil value\" | 4, 0
return 1 < \"x\" => Failed \"t.conf:1: attempt to compare number with string\" | 5, 0
return 99999999999999 + 1 => Failed \"t.conf:1: number out of range\" | 5, 0
return \"12345678901234567890123456789012\" < \"12345678901234567890123456789013\" => Done true | 6, 0";

const STATEMENTS: &str = "\
local a, b = 1 return a, b => Done 1, nil | 6, 0
local i = 0 while i < 3 do i = i + 1 end return i => Done 3 | 36, 0
if nil then return 1 elseif 2 then return 3 end => Done 3 | 6, 0
local a a, a = 1, 2 return a => Done 1 | 9, 0
local x = 1 local f = function() x = x + 1 return x end f() return f(), x => Done 3, 3 | 28, 56";

const CALLS: &str = "\
local function f(...) return ... end return f(1, 2, 3) => Done 1, 2, 3 | 14, 32
local function f(...) return (...), ... end return f(1, 2) => Done 1, 1, 2 | 15, 32
local function f(n) if n == 0 then return 0 end return f(n - 1) end return f(3) => Done 0 | 46, 56
return pcall(error, \"x\") => Done false, \"t.conf:1: x\" | 8, 0
return pcall(error) => Done false, nil | 7, 0
return pcall() => Failed \"t.conf:1: bad argument #1 to 'pcall' (value expected, got no value)\" | 5, 0
return pcall(function() error(\"in\") end) => Done false, \"t.conf:1: in\" | 12, 32
error(\"a\") => Failed \"t.conf:1: a\" | 6, 0
error(\"a\", 0) => Failed \"a\" | 7, 0
error(42) => Failed 42 | 6, 0
local function f() error(\"m\", 2) end¶f() => Failed \"t.conf:2: m\" | 12, 32
local function f() error(\"m\", 2) end¶return f() => Failed \"m\" | 12, 32
local function f() error(\"m\", 9) end f() => Failed \"m\" | 12, 32
return error(\"m\") => Failed \"t.conf:1: m\" | 6, 0
return assert(false) => Failed \"t.conf:1: assertion failed!\" | 6, 0
return assert(nil, \"m\") => Failed \"t.conf:1: m\" | 7, 0
return assert(1, 2, 3) => Done 1, 2, 3 | 8, 0";

/// In a store whose tables, cells and closures are frozen.
const FROZEN: &str =
    "frozen: x = 1 => Failed \"t.conf:1: attempt to modify a frozen table\" | 4, 0";

/// Tail calls and loops for ever, which nothing catches, and calls that are more than 5,000 deep.
const SPENT: &str = "\
local function f() return f() end f() => Spent | 1000000, 56
while true do end => Spent | 1000000, 0
pcall(function() while true do end end) return 1 => Spent | 1000000, 32
local function f() return 1 + f() end return pcall(f) => Done false, \"t.conf:1: stack overflow\" | 30002, 56";

/// Threads that are parked, and what they are resumed with.
const PARKS: &str = "\
local ok, v = pcall(function() return w(1) + 1 end) return ok, v <- 41 => Parked(0: 1) at 13; Done true, 42 | 17, 32
return w(\"a\", nil) <- 1 nil => Parked(0: \"a\", nil) at 7; Done 1, nil | 7, 0
w() return w() <- nothing, 3 => Parked(0: ) at 5; Parked(0: ) at 9; Done 3 | 9, 0
return pcall(w) <- raise => Parked(0: ) at 7; Done false, \"t.conf:1: refused\" | 7, 0";

/// What branches, calls, iterations and functions of the library come to.
fn hold_of_statements(rt: &impl Abort, alloc: Global) {
    hold(rt, alloc, EXPRESSIONS);
    hold(rt, alloc, STATEMENTS);
    hold(rt, alloc, CALLS);
    hold(rt, alloc, FROZEN);
    hold(rt, alloc, SPENT);
    hold(rt, alloc, PARKS);
    hold(rt, alloc, branches::ARMS);
    hold(rt, alloc, branches::TRUTHS);
    hold(rt, alloc, branches::EQUALITIES);
    hold(rt, alloc, branches::MADE);
    hold(rt, alloc, branches::RETURNS);
    hold(rt, alloc, branches::FAULTS);
    hold(rt, alloc, branches::LAST_STEP);
    hold(rt, alloc, calls::VALUES);
    hold(rt, alloc, calls::OTHERS);
    hold(rt, alloc, calls::INNERMOST);
    hold(rt, alloc, calls::LAST_STEP);
    hold(rt, alloc, iterations::REPEATS);
    hold(rt, alloc, iterations::COUNTED);
    hold(rt, alloc, iterations::CALLED);
    hold(rt, alloc, iterations::CAPTURED);
    hold(rt, alloc, iterations::LAST_STEP);
    hold_sites(rt, alloc, "", library::VALUES);
    hold_sites(rt, alloc, "", library::TRAVERSAL);
    hold_sites(rt, alloc, "", library::LISTS_AND_NUMBERS);
}

/// What links, loops, operators, protected calls and tables come to.
fn hold_of_values(rt: &impl Abort, alloc: Global) {
    hold(rt, alloc, links::FOUND);
    hold(rt, alloc, links::OTHERS);
    hold(rt, alloc, links::LATER);
    hold(rt, alloc, links::LAST_STEP);
    hold(rt, alloc, loops::LOOPS);
    hold(rt, alloc, loops::CAPTURED);
    hold(rt, alloc, loops::FAULTS);
    hold(rt, alloc, loops::LAST_STEP);
    hold(rt, alloc, operators::ARITHMETIC);
    hold(rt, alloc, operators::COMPARISON);
    hold(rt, alloc, operators::JOINING);
    hold(rt, alloc, operators::JOINING_LIMITS);
    hold(rt, alloc, operators::PARKS);
    hold(rt, alloc, protected::PROTECTED);
    hold(rt, alloc, protected::LEVELS);
    hold(rt, alloc, protected::TEXTS);
    hold(rt, alloc, protected::SPENT);
    hold(rt, alloc, protected::LIMITS);
    hold(rt, alloc, protected::ASKED);
    hold(rt, alloc, tables::TABLES);
    hold(rt, alloc, tables::METATABLES);
}

/// What small texts of plain Lua come to.
fn hold_of_lua(rt: &impl Abort, alloc: Global) {
    hold_answers(rt, alloc, snippets::expressions::EXPRESSIONS);
    hold_answers(rt, alloc, snippets::functions::FUNCTIONS);
    hold_answers(rt, alloc, snippets::loops::LOOPS);
    hold_answers(rt, alloc, snippets::metatables::METATABLES);
    hold_answers(rt, alloc, snippets::protected::FAULTS);
    hold_answers(rt, alloc, snippets::tables::TABLES);
    hold_answers(rt, alloc, snippets::variables::VARIABLES);
}

/// What handlers print, and how sites start.
fn hold_of_sites(rt: &impl Abort, alloc: Global) {
    hold_handlers(rt, alloc, printing::VALUES);
    hold_handlers(rt, alloc, printing::BAD_ARGUMENTS);
    hold_handlers(rt, alloc, printing::BAD_REQUESTS);
    hold_handlers(rt, alloc, printing::LIMITS);
    hold_handlers(rt, alloc, printing::ENDS);
    hold_handlers(rt, alloc, printing::MANY);
    hold_sites(rt, alloc, "", starting::GLOBALS);
    hold_sites(rt, alloc, "", starting::MODULES_REQUIRED);
    hold_sites(rt, alloc, "", starting::REFUSED);
}

#[test]
fn programs_come_to_their_values(rt: HostRuntime) {
    hold_of_statements(&rt, rt.alloc());
    hold_of_values(&rt, rt.alloc());
}

#[test]
fn plain_lua_comes_to_what_it_comes_to(rt: HostRuntime) {
    hold_of_lua(&rt, rt.alloc());
}

#[test]
fn handlers_print_and_sites_start(rt: HostRuntime) {
    hold_of_sites(&rt, rt.alloc());
}
