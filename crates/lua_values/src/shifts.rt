//! Values of a table that move by one number.

ghost use Rattle.std.specs.Prelude.{◌≡◌, ◌≤◌};
ghost use Rattle.lua_values.specs.Values.{number};
ghost use Rattle.lua_values.specs.Shifts.{IsShift, moves, place};

use crate::Value;
use resty_base::Whole;

/// Which values move: those at the numbers `from` to `to`, each one number up or down.
#[derive(Clone, Copy)]
pub struct Shift {
    pub from: u64,
    pub to: u64,
    pub up: bool,
}

impl Shift {
    /// How many values move.
    pub fn moves(self) -> u64
        requires { IsShift self }
        ensures { result ≡ moves self }
    {
        self.to - self.from + 1
    }

    /// The i-th number in the order in which they are written, as a key.
    pub fn key(self, i: u64) -> Value
        requires shift { IsShift self }
        requires within { i ≤ moves self }
        ensures { result ≡ number (place self i) }
    {
        if self.up {
            whole(self.to + 1 - i)
        } else {
            whole(self.from - 1 + i)
        }
    }
}

/// The number n as a value.
fn whole(n: u64) -> Value
    requires { n ≤ 99_999_999_999_999 }
    ensures { result ≡ number n }
{
    match Whole::new(n as i64) {
        Some(whole) => Value::Number(whole),
        None => unreachable!(),
    }
}
