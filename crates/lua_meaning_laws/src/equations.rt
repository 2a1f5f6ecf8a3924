//! What each construct comes to, as laws.

ghost use Rattle.lua_meaning_laws.specs.Expressions.{EachExpressionIs};
ghost use Rattle.lua_meaning_laws.specs.Operators.{EachOperatorIs};
ghost use Rattle.lua_meaning_laws.specs.Statements.{EachStatementIs};
ghost use Rattle.lua_meaning_laws.specs.Loops.{EachLoopIs};
ghost use Rattle.lua_meaning_laws.specs.Calls.{EachCallIs};

use lua_meaning::{evaluator_evaluates, works_in_order};

/// What each expression comes to, where all its values are wanted and where one is, and what a list of expressions does.
pub fn expressions_are()
    ensures { EachExpressionIs }
{
    evaluator_evaluates();
    works_in_order();
}

/// What each operator comes to on values, with the handlers of their metatables.
pub fn operators_are()
    ensures { EachOperatorIs }
{}

/// What each statement comes to.
pub fn statements_are()
    ensures { EachStatementIs }
{
    evaluator_evaluates();
    works_in_order();
}

/// What a run of a loop's body comes to, for each loop.
pub fn loops_are()
    ensures { EachLoopIs }
{
    evaluator_evaluates();
    works_in_order();
}

/// What a call comes to of what is no closure, and what an index or an assignment leads on to.
pub fn calls_are()
    ensures { EachCallIs }
{
    evaluator_evaluates();
}
