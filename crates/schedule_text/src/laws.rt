//! Laws of the texts: each is the clause of a function that does nothing.
ghost use Rattle.std.specs.Prelude.{◌≡◌, ℕ, List};
ghost use Rattle.resty_world.specs.declared.entry.Entry.{Entry};
ghost use Rattle.resty_world.specs.declared.schedule_line.SchedLine.{SchedLine};
ghost use Rattle.schedule_text.specs.Accepted.{IsHistory, IsRead, IsRefusedAt};
ghost use Rattle.schedule_text.specs.EntryTexts.{entry_text, history_text};
ghost use Rattle.schedule_text.specs.Fitting.{IsSchedule};
ghost use Rattle.schedule_text.specs.LineTexts.{line_text, schedule_text};
ghost use Rattle.schedule_text.specs.Ranges.{IsEntry, IsLine};

/// A law: a line of a schedule is known by its text.
pub fn a_line_is_known_by_its_text()
    ensures { (l m : SchedLine) → IsLine l → IsLine m → line_text l ≡ line_text m → l ≡ m }
{}

/// A law: an entry of a history is known by its text.
pub fn an_entry_is_known_by_its_text()
    ensures { (e g : Entry) → IsEntry e → IsEntry g → entry_text e ≡ entry_text g → e ≡ g }
{}

/// A law: a schedule is known by its text.
pub fn a_schedule_is_known_by_its_text()
    ensures { (lines others : List SchedLine) → IsSchedule lines → IsSchedule others → schedule_text lines ≡ schedule_text others → lines ≡ others }
{}

/// A law: a text that is read as a schedule isn't refused at any line.
pub fn no_schedule_is_refused()
    ensures { (text : List ℕ) (lines : List SchedLine) (n : ℕ) → IsRead text lines → ¬ (IsRefusedAt text n) }
{}

/// A law: a history is known by its text.
pub fn a_history_is_known_by_its_text()
    ensures { (history other : List Entry) → IsHistory history → IsHistory other → history_text history ≡ history_text other → history ≡ other }
{}
