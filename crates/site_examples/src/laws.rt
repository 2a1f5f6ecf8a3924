//! Laws of one exchange, each the contract of a function that does nothing.

ghost use Rattle.std.specs.Prelude.{◌≡◌, ℕ, List, [], ◌∷◌};
ghost use Rattle.std.specs.Global.{Global};
ghost use Rattle.schedule_text.specs.EntryTexts.{history_text};
ghost use Rattle.schedule_text.specs.Accepted.{IsRead};
ghost use Rattle.schedule.specs.Told.{IsTold};
ghost use Rattle.executions.specs.Histories.{external, offered_lengths};
ghost use Rattle.executions.specs.Lawful.{IsLawful, IsKept};
ghost use Rattle.executions.specs.Plain.{IsPlain};
ghost use Rattle.executions.specs.Ordered.{IsOrdered};
ghost use Rattle.site_check.specs.Sites.{IsRead as IsSiteRead};
ghost use Rattle.site_examples.specs.Site.{hi_conf, hi_behavior};
ghost use Rattle.site_examples.specs.Program.{hi_program};
ghost use Rattle.site_examples.specs.Lives.{IsItsLife, SaysOneLine};
ghost use Rattle.site_examples.specs.Exchange.{lines, history, exchange};
ghost use Rattle.site_examples.specs.Texts.{configuration_text, schedule_text, exchange_text};
ghost use Rattle.site_examples.specs.Spoiled.{HasNoExecution, HasNoPlainExecution, HasNoOrderedExecution};
ghost use Rattle.site_examples.specs.Spoiled.{byte_lost, put_after_stop, date_late, no_close, not_asked, turned_away, dropped_by_others};

/// The texts of the exchange are those of its site, its schedule and its history; a program stands in memory, of which there is some.
pub fn texts()
    ensures site { (heap : Global) → IsSiteRead configuration_text hi_conf (hi_program heap ∷ []) }
    ensures schedule { IsRead schedule_text lines }
    ensures history { history_text history ≡ exchange_text }
{}

/// The handler is what the evaluator makes of the block's program, and it says one line for each request.
pub fn a_handler()
    ensures life { IsItsLife }
    ensures line { SaysOneLine }
{}

/// The exchange is a run of its schedule: it is told by these lines, lawful, kept, plain and ordered.
pub fn a_run()
    ensures history { external hi_behavior exchange ≡ history }
    ensures told { IsTold lines history (offered_lengths hi_behavior exchange) }
    ensures lawful { IsLawful hi_behavior exchange }
    ensures kept { IsKept hi_behavior exchange }
    ensures plain { IsPlain hi_behavior exchange }
    ensures ordered { IsOrdered hi_behavior exchange }
{}

/// The spoiled histories are of no execution that is lawful and plain.
pub fn no_runs()
    ensures byte_lost { HasNoExecution byte_lost }
    ensures put_after_stop { HasNoExecution put_after_stop }
    ensures date_late { HasNoExecution date_late }
    ensures no_close { HasNoExecution no_close }
{}

/// Each of told, plain and ordered refuses a history of its own.
pub fn refusals()
    ensures not_told { (offered : List ℕ) → IsTold lines not_asked offered → ⊥ }
    ensures not_plain { HasNoPlainExecution turned_away }
    ensures not_ordered { HasNoOrderedExecution dropped_by_others }
{}
