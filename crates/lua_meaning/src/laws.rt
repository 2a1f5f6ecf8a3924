//! Laws of the evaluator, each the contract of a function.

ghost use Rattle.lua_meaning.specs.Laws.{EvaluatorEvaluates, OnlyEvaluator, DepthNeverShows, WorksInOrder};

/// The evaluator counts a step for each node, and does its work by itself.
pub fn evaluator_evaluates()
    ensures { EvaluatorEvaluates }
{}

/// No other function does.
pub fn only_evaluator()
    ensures { OnlyEvaluator }
{}

/// How deep nodes may be within one another never shows.
pub fn depth_never_shows()
    ensures { DepthNeverShows }
{}

/// Work after work is done in order.
pub fn works_in_order()
    ensures { WorksInOrder }
{}
