//! Operators on two numbers (Lua 5.1 Reference Manual, 2.5.1 and 2.5.2).

ghost use Rattle.std.specs.Prelude.{IfSome};
ghost use Rattle.lua_values.specs.declared.values.Value.TheVariants.{Number, Truth};
ghost use Rattle.lua_vm_fast.specs.Gives.{Operates};

use lua_ast::BinOp;
use lua_numbers::{add, div, modulo, mul, sub};
use resty_base::Whole;

/// The number that an operator gives; `None` at a fault, of a comparison, and of `^` and `..`.
#[inline(always)]
pub(crate) fn computed(operator: BinOp, a: Whole, b: Whole) -> Option<Whole>
    ensures { IfSome result (λ n. Operates operator a b (Number n)) }
{
    match operator {
        BinOp::Add => add(a, b).ok(),
        BinOp::Sub => sub(a, b).ok(),
        BinOp::Mul => mul(a, b).ok(),
        BinOp::Div => div(a, b).ok(),
        BinOp::Mod => modulo(a, b).ok(),
        _ => None,
    }
}

/// Whether a comparison holds; `None` of any other operator.
#[inline(always)]
pub(crate) fn compared(operator: BinOp, a: Whole, b: Whole) -> Option<bool>
    ensures { IfSome result (λ holds. Operates operator a b (Truth holds)) }
{
    match operator {
        BinOp::Eq => Some(a.get() == b.get()),
        BinOp::Ne => Some(a.get() != b.get()),
        BinOp::Lt => Some(a.get().cmp(&b.get()).is_lt()),
        BinOp::Le => Some(a.get().cmp(&b.get()).is_le()),
        BinOp::Gt => Some(b.get().cmp(&a.get()).is_lt()),
        BinOp::Ge => Some(b.get().cmp(&a.get()).is_le()),
        _ => None,
    }
}
