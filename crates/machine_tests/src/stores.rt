//! Tests of the store: scripts of calls with their answers, the texts of its faults, and two libraries of functions of the host.

mod calls;
mod words;

use calls::hold;
use lua_values::*;
use std::alloc::Global;
use words::{put, put_number};

/// Keys of each kind, no two of which are equal.
const KEYS: &str = "\
get 0 false = nil
set 0 false 0 = ok
get 0 true = nil
set 0 true 1 = ok
get 0 1 = nil
set 0 1 2 = ok
get 0 -1 = nil
set 0 -1 3 = ok
get 0 '1 = nil
set 0 '1 4 = ok
get 0 ' = nil
set 0 ' 5 = ok
get 0 table:1 = nil
set 0 table:1 6 = ok
get 0 closure:1 = nil
set 0 closure:1 7 = ok
get 0 native:1 = nil
set 0 native:1 8 = ok
get 0 thread:1 = nil
set 0 thread:1 9 = ok
get 0 null = nil
set 0 null 10 = ok
get 0 socket:1 = nil
set 0 socket:1 11 = ok
get 0 reader:1 = nil
set 0 reader:1 12 = ok
get 0 semaphore:1 = nil
set 0 semaphore:1 13 = ok
get 0 zone:1 = nil
set 0 zone:1 14 = ok
get 0 zone:2 = nil
set 0 zone:2 15 = ok
get 0 false = 0
get 0 true = 1
get 0 1 = 2
get 0 -1 = 3
get 0 '1 = 4
get 0 ' = 5
get 0 table:1 = 6
get 0 closure:1 = 7
get 0 native:1 = 8
get 0 thread:1 = 9
get 0 null = 10
get 0 socket:1 = 11
get 0 reader:1 = 12
get 0 semaphore:1 = 13
get 0 zone:1 = 14
get 0 zone:2 = 15
units = 544
walk 0 = 0 1 2 3 4 5 6 7 8 9 10 11 12 13 14 15";

/// Keys that are set to nil and again.
const NIL_AT_A_KEY: &str = "\
set 0 'a 1 = ok
walk 0 = 1
set 0 'b 2 = ok
walk 0 = 1 2
set 0 'c 3 = ok
walk 0 = 1 2 3
set 0 'a nil = ok
walk 0 = 2 3
set 0 'd nil = ok
walk 0 = 2 3
set 0 'd 4 = ok
walk 0 = 2 3 4
set 0 'a 5 = ok
walk 0 = 5 2 3 4
set 0 'c nil = ok
walk 0 = 5 2 4
set 0 'd nil = ok
walk 0 = 5 2
units = 160
next 0 'e = none
next 0 'b = none
next 7 nil = none";

/// A walk in which each key that is met is set to nil.
const EMPTIED: &str = "\
set 0 1 1 = ok
set 0 2 2 = ok
set 0 3 3 = ok
set 0 4 4 = ok
set 0 5 5 = ok
set 0 6 6 = ok
set 0 7 7 = ok
set 0 8 8 = ok
set 0 9 9 = ok
next 0 nil = 1 1
set 0 1 nil = ok
next 0 1 = 2 2
set 0 2 nil = ok
next 0 2 = 3 3
set 0 3 nil = ok
next 0 3 = 4 4
set 0 4 nil = ok
next 0 4 = 5 5
set 0 5 nil = ok
next 0 5 = 6 6
set 0 6 nil = ok
next 0 6 = 7 7
set 0 7 nil = ok
next 0 7 = 8 8
set 0 8 nil = ok
next 0 8 = 9 9
set 0 9 nil = ok
next 0 9 = none
next 0 nil = none";

/// What the border is as numbers are set and unset.
const BORDERS: &str = "\
set 0 2 1 = ok
border 0 = 0
set 0 3 1 = ok
border 0 = 0
set 0 1 1 = ok
border 0 = 3
set 0 5 1 = ok
border 0 = 3
set 0 4 1 = ok
border 0 = 5
set 0 2 nil = ok
border 0 = 1
set 0 0 1 = ok
border 0 = 1
set 0 -1 1 = ok
border 0 = 1
set 0 1 nil = ok
border 0 = 0
set 0 2 1 = ok
border 0 = 0
set 0 1 1 = ok
border 0 = 5
border 1 = 0";

/// What is at `__index`: before it is set, after other keys and before more, set to nil and again, among more than eight keys, in a copy, and of what
/// isn't there.
const LINKS: &str = "\
link 0 = nil
link 9 = nil
set 0 1 1 = ok
set 0 2 2 = ok
set 0 'index 3 = ok
set 0 '__inde 4 = ok
set 0 '__newindex 5 = ok
set 0 '__indexx 6 = ok
link 0 = nil
set 0 '__index nil = ok
link 0 = nil
set 0 '__index 7 = ok
link 0 = 7
set 0 3 8 = ok
set 0 'a 9 = ok
link 0 = 7
set 0 '__index nil = ok
link 0 = nil
get 0 '__index = nil
set 0 '__index table:0 = ok
link 0 = table:0
get 0 '__index = table:0
walk 0 = 1 2 3 4 5 6 table:0 8 9
make_table = 1
link 1 = nil
set 1 'a 1 = ok
set 1 'b 2 = ok
set 1 'c 3 = ok
set 1 'd 4 = ok
set 1 'e 5 = ok
set 1 'f 6 = ok
set 1 'g 7 = ok
set 1 'h 8 = ok
set 1 'i 9 = ok
link 1 = nil
set 1 '__index 10 = ok
set 1 'j 11 = ok
link 1 = 10
copy
store 1
link 0 = table:0
link 1 = 10
set 1 '__index 12 = ok
link 1 = 12
store 0
link 1 = 10
freeze
set 1 '__index 13 = frozen
link 1 = 10
replace
link 1 = 10
link 0 = table:0";

/// Each fault alone and two at once, of a table and a cell that are frozen, of others, and of what isn't there.
const FAULTS: &str = "\
set 0 1 1 = ok
make_cell 1 = 0
freeze
make_table = 1
make_cell nil = 1
units = 128
add_units 1048449 = full
add_units 18446744073709551615 = full
add_units 1048417 = ok
set 0 nil 1 = bad key
set 0 1 2 = frozen
set 0 2 2 = frozen
set 0 2 nil = frozen
set 1 nil 2 = bad key
set 1 nil nil = bad key
set 1 1 2 = full
set 1 1 nil = ok
set 2 1 2 = ok
set 2 nil nil = bad key
make_table = full
make_closure 0 = full
make_cell nil = 2
make_cell nil = full
set_cell 0 null = frozen
set_cell 1 null = ok
set_cell 9 null = ok
set_metatable 0 none = frozen
set_metatable 1 0 = ok
set_metatable 9 0 = ok
metatable 0 = none
metatable 1 = 0
metatable 9 = none
cell 0 = 1
cell 1 = null
cell 9 = nil";

/// Units and steps up to their limits.
const COUNTS: &str = "\
units = 32
steps = 0
globals = 0
make_cell nil = 0
units = 48
make_closure 7 0 0 = 0
units = 96
closure 0 = 7 0 0
closure 1 = none
add_units 1048440 = ok
make_closure 8 0 0 = full
make_closure 8 0 = 1
units = 1048576
add_steps 1
steps = 1
add_steps 999998
steps = 999999
add_steps 2
steps = 1000000
add_steps 18446744073709551615
steps = 1000000
clear_steps
steps = 0
count 999999 = true
count 0 = true
count 1 = false
steps = 1000000
count 0 = false
count 18446744073709551615 = false
clear_steps
count 1000000 = false
clear_steps
steps = 0
set_globals 3
globals = 3";

/// Two tables, the first of which has the other, and a closure, frozen; then a table that has itself, also as its
/// metatable, and a cell; and what a copy of them gives once they are gone.
const CYCLES: &str = "\
make_table = 1
set 0 null table:1 = ok
make_closure 3 0 = 0
freeze
make_table = 2
set 2 null table:2 = ok
set_metatable 2 2 = ok
make_cell table:2 = 0
set_type_metatable text 1
set_type_metatable zone 2
replace
get 0 null = table:1
get 2 null = table:2
metatable 1 = none
metatable 2 = 2
closure 0 = 3 0
cell 0 = table:2
type_metatable text = 1
type_metatable zone = 2
type_metatable socket = none";

/// The same again. Writes to the copy don't show in what was copied, nor do writes to that in the copy.
const COPY: &str = "\
make_table = 1
set 0 null table:1 = ok
make_closure 3 0 = 0
freeze
make_table = 2
set 2 null table:2 = ok
set_metatable 2 2 = ok
make_cell table:2 = 0
set_type_metatable text 1
set_type_metatable zone 2
copy
store 1
set_metatable 1 0 = frozen
set 0 null null = frozen
set 2 null null = ok
set_cell 0 nil = ok
freeze
store 0
get 2 null = table:2
cell 0 = table:2
set 2 null nil = ok
store 1
get 2 null = null
set 2 null nil = frozen";

/// A store that is frozen and copied again and again, with a table more each time.
const COPIES: &str = "\
set 0 null table:0 = ok
freeze
copy
store 1
get 0 null = table:0
store 0
set 0 null nil = frozen
make_table = 1
set 1 null table:1 = ok
freeze
copy
store 2
get 0 null = table:0
get 1 null = table:1
store 0
set 0 null nil = frozen
set 1 null nil = frozen
make_table = 2
set 2 null table:2 = ok
freeze
copy
store 3
get 0 null = table:0
get 1 null = table:1
get 2 null = table:2
store 0
set 0 null nil = frozen
set 1 null nil = frozen
set 2 null nil = frozen
make_table = 3
set 3 null table:3 = ok
freeze
copy
store 4
get 0 null = table:0
get 1 null = table:1
get 2 null = table:2
get 3 null = table:3
store 0
set 0 null nil = frozen
set 1 null nil = frozen
set 2 null nil = frozen
set 3 null nil = frozen
make_table = 4";

/// Values that move by one number: up and down, within entries that are there, to new ones and past holes; none, in no table,
/// above the units, and in a frozen table.
const SHIFTS: &str = "\
set 0 1 'a = ok
set 0 2 'b = ok
set 0 3 'c = ok
shift 0 1 3 up = ok
walk 0 = 'a 'a 'b 'c
units = 160
shift 0 2 4 down = ok
walk 0 = 'a 'b 'c 'c
set 0 4 nil = ok
shift 0 1 3 up = ok
walk 0 = 'a 'a 'b 'c
border 0 = 4
units = 160
shift 0 3 2 up = ok
shift 0 1 1 down = ok
get 0 0 = 'a
units = 192
make_table = 1
set 1 1 'x = ok
set 1 3 'z = ok
shift 1 1 3 up = ok
get 1 1 = 'x
get 1 2 = 'x
get 1 3 = nil
get 1 4 = 'z
next 1 1 = 4 'z
next 1 4 = 2 'x
border 1 = 2
units = 352
shift 9 1 3 up = ok
add_units 1048193 = ok
shift 1 4 4 up = full
get 1 5 = nil
shift 1 1 1 up = ok
units = 1048545
freeze
shift 0 1 2 up = frozen
shift 0 2 1 up = ok";

#[test]
fn scripts_give_their_answers(rt: HostRuntime) {
    hold(&rt, rt.alloc(), KEYS);
    hold(&rt, rt.alloc(), NIL_AT_A_KEY);
    hold(&rt, rt.alloc(), EMPTIED);
    hold(&rt, rt.alloc(), BORDERS);
    hold(&rt, rt.alloc(), LINKS);
    hold(&rt, rt.alloc(), FAULTS);
    hold(&rt, rt.alloc(), COUNTS);
    hold(&rt, rt.alloc(), SHIFTS);
    hold(&rt, rt.alloc(), CYCLES);
    hold(&rt, rt.alloc(), COPY);
    hold(&rt, rt.alloc(), COPIES);
}

/// Writes the text of a fault.
fn see_fault(all: &mut String, fault: StoreFault) {
    let _ = write!(all, "{fault}; ");
}

/// What faults of the store say.
fn said(alloc: Global) -> String {
    let mut all = String::new(alloc);
    see_fault(&mut all, StoreFault::Full);
    see_fault(&mut all, StoreFault::Frozen);
    see_fault(&mut all, StoreFault::BadKey);
    see_fault(&mut all, StoreFault::Memory);
    all
}

/// One function of the host, which leaves its answer to the outside.
#[derive(Drop)]
struct Parks;

impl Natives for Parks {
    ghost use Rattle.lua_values.specs.NativeCalls as calls;

    ghost size = { λ _. 1 };

    ghost meaning = { λ _ number args heap. calls.Leaves 0 };

    fn count(&self) -> u32 {
        1
    }

    fn call(&self, _alloc: Global, _number: u32, _args: &[Value], store: &mut Store) -> NativeOut {
        store.add_steps(0);
        NativeOut::Outside
    }
}

/// Two functions of the host, which give nothing in as many steps as their numbers.
#[derive(Drop)]
struct Gives;

impl Natives for Gives {
    ghost use Rattle.std.specs.Prelude.{[]};
    ghost use Rattle.lua_values.specs.NativeCalls as calls;

    ghost size = { λ _. 2 };

    ghost meaning = { λ _ number args heap. calls.Gives [] heap number };

    fn count(&self) -> u32 {
        2
    }

    fn call(&self, alloc: Global, number: u32, _args: &[Value], store: &mut Store) -> NativeOut {
        store.add_steps(u64::from(number));
        NativeOut::Values(Values::of(Vec::new(alloc)))
    }
}

/// Calls one of the three functions of both, and writes whether the answer is left to the outside, the steps, and how many functions
/// there are.
fn see_called(alloc: Global, all: &mut String, store: &mut Store, number: u32) {
    if number >= 3 {
        return;
    }
    let natives = Both::new(Parks, Gives);
    let answer = natives.call(alloc, number, &[], store);
    let parks = matches!(&answer, NativeOut::Outside);
    put(all, if parks { "parks" } else { "gives" });
    put_number(all, " ", store.steps());
    put_number(all, " of ", u64::from(natives.count()));
    put(all, "; ");
}

/// What is written of each function.
fn called(alloc: Global) -> String {
    let mut all = String::new(alloc);
    match Store::new(alloc) {
        Ok(mut store) => {
            for number in 0..3 {
                see_called(alloc, &mut all, &mut store, number);
            }
        }
        Err(_) => put(&mut all, "memory"),
    }
    all
}

#[test]
fn faults_have_texts_and_the_numbers_of_the_first_library_come_first(rt: HostRuntime) {
    let texts = "not enough memory (storage limit); Frozen; table index is nil; Memory; ";
    assert_eq!(rt; said(rt.alloc()).as_str(), texts);
    let numbers = "parks 0 of 3; gives 0 of 3; gives 1 of 3; ";
    assert_eq!(rt; called(rt.alloc()).as_str(), numbers);
}
