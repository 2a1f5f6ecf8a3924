//! Nodes of the machine: how expressions begin.
#![tactic(auto)]

mod captures;
mod children;
mod closures;
mod constructors;
mod expressions;
mod globals;
mod leaves;
mod lists;
mod under;
mod varargs;
mod variables;

pub use captures::make_closure;
pub use expressions::{enter_expr, enter_value};
pub use lists::{begin_list, go_on_with_list};
pub use under::{expr_under, list_under, value_under};
