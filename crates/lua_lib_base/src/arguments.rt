//! The arguments of a call. They are numbered from 1.

ghost use Rattle.std.specs.Prelude.{◌≡◌, ◌<◌, Ok, Err, IfOk, IfErr, option_copied};
ghost use Rattle.lua_lib_base.specs.Arguments.{argument, is_absent, any_at, table_at, table_or_nil_at, number_at, number_or_at, text_at, refused, found};
ghost use Rattle.lua_lib_base.specs.Results.{Agrees};

use crate::{Expected, Refusal, Unanswered};
use lua_operators::{LuaType, number_of, text_of, type_of};
use lua_values::Value;
use resty_base::{Bytes, Whole};
use std::alloc::Global;

/// The arguments of a function of this name.
#[derive(Clone, Copy)]
pub struct Args<'a> {
    pub name: &'static [u8],
    pub values: &'a [Value],
}

impl<'a> Args<'a> {
    /// An argument, none where it is missing.
    pub fn argument(&self, number: u32) -> Option<&'a Value>
        requires { 0 < number }
        ensures { option_copied result ≡ argument self.now.values.now number }
    {
        self.values.get((number - 1) as usize)
    }

    /// Whether an argument is missing or nil, where the manual gives a default.
    pub fn is_absent(&self, number: u32) -> bool
        requires { 0 < number }
        ensures { result ≡ is_absent (argument self.now.values.now number) }
    {
        match self.argument(number) {
            None => true,
            Some(value) => value.is_nil(),
        }
    }

    /// An argument of any type, nil too.
    pub fn any(&self, number: u32) -> Result<&'a Value, Refusal>
        requires { 0 < number }
        ensures given { IfOk result (λ value. any_at self.now.values.now number ≡ Ok value.now) }
        ensures refused { IfErr result (λ refusal. any_at self.now.values.now number ≡ Err refusal) }
    {
        match self.argument(number) {
            Some(value) => Ok(value),
            None => Err(self.refused(number, Expected::Value)),
        }
    }

    /// A table.
    pub fn table(&self, number: u32) -> Result<u32, Refusal>
        requires { 0 < number }
        ensures { result ≡ table_at self.now.values.now number }
    {
        match self.argument(number) {
            Some(value) => match value {
                Value::Table(t) => Ok(*t),
                _ => Err(self.refused(number, Expected::Table)),
            },
            None => Err(self.refused(number, Expected::Table)),
        }
    }

    /// A table or nil, which may not be left out.
    pub fn table_or_nil(&self, number: u32) -> Result<Option<u32>, Refusal>
        requires { 0 < number }
        ensures { result ≡ table_or_nil_at self.now.values.now number }
    {
        match self.argument(number) {
            Some(value) => match value {
                Value::Table(t) => Ok(Some(*t)),
                Value::Nil => Ok(None),
                _ => Err(self.refused(number, Expected::NilOrTable)),
            },
            None => Err(self.refused(number, Expected::NilOrTable)),
        }
    }

    /// A number, or a text that writes one.
    pub fn number(&self, number: u32) -> Result<Whole, Refusal>
        requires { 0 < number }
        ensures { result ≡ number_at self.now.values.now number }
    {
        match self.argument(number) {
            Some(value) => match number_of(value) {
                Some(n) => Ok(n),
                None => Err(self.refused(number, Expected::Number)),
            },
            None => Err(self.refused(number, Expected::Number)),
        }
    }

    /// The same, or the default where it is missing or nil.
    pub fn number_or(&self, number: u32, default: Whole) -> Result<Whole, Refusal>
        requires { 0 < number }
        ensures { result ≡ number_or_at self.now.values.now number default }
    {
        if self.is_absent(number) {
            Ok(default)
        } else {
            self.number(number)
        }
    }

    /// A text, or a number as its text.
    pub fn text(&self, alloc: Global, number: u32) -> Result<Bytes, Unanswered>
        requires { 0 < number }
        ensures { Agrees (text_at self.now.values.now number) result }
    {
        match self.argument(number) {
            Some(value) => match value {
                Value::Text(_) | Value::Number(_) => Ok(text_of(alloc, value)?),
                _ => Err(Unanswered::from(self.refused(number, Expected::String))),
            },
            None => Err(Unanswered::from(self.refused(number, Expected::String))),
        }
    }

    /// The refusal of an argument that isn't what is expected.
    pub fn refused(&self, number: u32, expected: Expected) -> Refusal
        requires { 0 < number }
        ensures { result ≡ refused number expected (argument self.now.values.now number) }
    {
        Refusal::Argument(number, expected, self.found(number))
    }

    /// The type of an argument, none where it is missing.
    fn found(&self, number: u32) -> Option<LuaType>
        requires { 0 < number }
        ensures { result ≡ found (argument self.now.values.now number) }
    {
        match self.argument(number) {
            None => None,
            Some(value) => Some(type_of(value)),
        }
    }
}
