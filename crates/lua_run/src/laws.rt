//! On what the replies of a site of Lua depend: each the contract of a function that does nothing.

ghost use Rattle.std.specs.Prelude.{List};
ghost use Rattle.strand_contract.specs.Actions.{LocalAction};
ghost use Rattle.strand_contract.specs.Alone.{IsExecution};
ghost use Rattle.strand_plans.specs.Plans.{state_of};
ghost use Rattle.connection_plan.specs.Connections.{connection_plan, connection_behavior};
ghost use Rattle.lua_run.specs.Answers.{Site};
ghost use Rattle.lua_run.specs.Runs.{lua_plan};
ghost use Rattle.lua_run.specs.Services.{lua_service};
ghost use Rattle.lua_run.specs.Replies.{EachHasItsOwn};
ghost use Rattle.connection_laws.specs.Own.{MindsItsOwn};

/// Runs of a site of Lua mind their own.
pub fn lua_runs_mind_their_own<J>()
    ensures { (site : Site) → MindsItsOwn {J = J} (lua_plan site) }
{}

/// In each execution of a connection each request has the site's reply to it, made at a moment of the execution, and a head that is refused its refusal:
/// whatever else was asked before.
pub fn each_reply_is_its_own<J>()
    ensures { (site : Site) (es : List (LocalAction J)) → IsExecution (connection_behavior {J = J} (lua_service site)) es
        → EachHasItsOwn es site (state_of (connection_plan {J = J} (lua_service site)) es).inner.client.exchanges }
{}
