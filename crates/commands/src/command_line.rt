//! The words of a command, and the table of modes.

ghost use Rattle.std.specs.Prelude.{◌≡◌, ◌≢◌, ◌↔◌, ◌∷◌, ℕ, List, IfSome, IfNone, IsTrue, MatchOption, decimal};
ghost use Rattle.commands.specs.declared.command_line.Mode.{Mode};
ghost use Rattle.commands.specs.Words.{texts, IsValue, HasSchedule, IsCount, AsksEvents, Says, IsForm, mode_name, row_of};
ghost use Rattle.commands.specs.Saying.{said};

use itoa::Buffer;

/// What the program does.
#[derive(Clone, Copy)]
pub enum Mode {
    /// It reads the site, and says that it is one.
    Check,
    /// It serves the events of a schedule, and writes their history.
    Replay,
    /// It serves the events of the live world.
    Serve,
}

/// Which options a mode takes after `--conf F`; they stand in this order.
#[derive(Clone, Copy)]
struct Row {
    /// `--schedule F` stands there.
    has_schedule: bool,
    /// `--events N` may stand there.
    counts_events: bool,
}

impl Mode {
    /// The table of modes.
    fn row(self) -> Row
        ensures { result ≡ row_of self }
    {
        match self {
            Mode::Check => Row {
                has_schedule: false,
                counts_events: false,
            },
            Mode::Replay => Row {
                has_schedule: true,
                counts_events: true,
            },
            Mode::Serve => Row {
                has_schedule: false,
                counts_events: true,
            },
        }
    }

    /// The mode of this name.
    fn named(word: &str) -> Option<Mode>
        ensures { MatchOption result ((mode : Mode) → word.now ≢ mode_name mode) (λ mode. word.now ≡ mode_name mode) }
    {
        if word == "check" {
            Some(Mode::Check)
        } else if word == "replay" {
            Some(Mode::Replay)
        } else if word == "serve" {
            Some(Mode::Serve)
        } else {
            None
        }
    }
}

/// What the words ask for.
#[derive(Clone, Copy)]
pub struct Command<'a> {
    pub mode: Mode,
    /// The name of the configuration.
    pub conf: &'a str,
    /// The name of the schedule; `live` where the events are the live world's.
    pub schedule: &'a str,
    /// How many events are given at most.
    pub events: u64,
}

/// How many events are given at most where the words don't say it.
const ALL_EVENTS: u64 = 900_000_000_000_000_000;

/// What the words ask for, where they are a command.
pub fn command_of(words: &[String]) -> Option<Command<'_>>
    ensures some { IfSome result (λ command. Says (texts words.now) (said command)) }
    ensures none { IfNone result (¬ (IsForm (texts words.now))) }
{
    let Some((mode, rest)) = words.split_first() else {
        return None;
    };
    let Some(mode) = Mode::named(mode.as_str()) else {
        return None;
    };
    let Some(conf) = value_of("--conf", rest) else {
        return None;
    };
    let row = mode.row();
    let Some(schedule) = schedule_in(row.has_schedule, conf.rest) else {
        return None;
    };
    let Some(events) = events_in(row.counts_events, schedule.rest) else {
        return None;
    };
    Some(Command {
        mode,
        conf: conf.value,
        schedule: schedule.value,
        events,
    })
}

/// The value of an option, and the words after it.
#[derive(Clone, Copy)]
struct Valued<'a> {
    value: &'a str,
    rest: &'a [String],
}

/// The value of the option, where the words begin with it.
fn value_of<'a>(option: &str, words: &'a [String]) -> Option<Valued<'a>>
    ensures some { IfSome result (λ found. (texts words.now ≡ option.now ∷ found.value.now ∷ texts found.rest.now) × IsValue found.value.now) }
    ensures none { IfNone result ((value : List ℕ) (rest : List (List ℕ)) → IsValue value → texts words.now ≢ option.now ∷ value ∷ rest) }
{
    let Some((name, rest)) = words.split_first() else {
        return None;
    };
    let Some((value, rest)) = rest.split_first() else {
        return None;
    };
    if name.as_str() != option || !is_value(value.as_str()) {
        return None;
    }
    Some(Valued {
        value: value.as_str(),
        rest,
    })
}

/// The name of the schedule, where the mode has one.
fn schedule_in(has_schedule: bool, words: &[String]) -> Option<Valued<'_>>
    ensures some { IfSome result (λ found. HasSchedule has_schedule found.value.now (texts found.rest.now) (texts words.now)) }
    ensures none { IfNone result ((name : List ℕ) (rest : List (List ℕ)) → ¬ (HasSchedule has_schedule name rest (texts words.now))) }
{
    if has_schedule {
        value_of("--schedule", words)
    } else {
        Some(Valued {
            value: "live",
            rest: words,
        })
    }
}

/// How many events are asked for by the last words.
fn events_in(counts_events: bool, words: &[String]) -> Option<u64>
    ensures { MatchOption result ((count : ℕ) → ¬ (AsksEvents counts_events count (texts words.now)))
        (λ count. AsksEvents counts_events count (texts words.now)) }
{
    let Some((option, rest)) = words.split_first() else {
        return Some(ALL_EVENTS);
    };
    let Some((word, rest)) = rest.split_first() else {
        return None;
    };
    if !counts_events || option.as_str() != "--events" || !rest.is_empty() {
        return None;
    }
    count_in(word.as_str())
}

/// The number of events that the word is: 1 to 18 digits, the first of which isn't 0.
fn count_in(word: &str) -> Option<u64>
    ensures { MatchOption result ((count : ℕ) → ¬ (IsCount word.now count)) (IsCount word.now) }
{
    let Ok(count) = word.parse::<u64>() else {
        return None;
    };
    if is_number(word, count) && 0 < count && count < 1_000_000_000_000_000_000 {
        Some(count)
    } else {
        None
    }
}

/// Whether the word is this number.
fn is_number(word: &str, number: u64) -> bool
    ensures { IsTrue result ↔ (word.now ≡ decimal number) }
{
    let mut buffer = Buffer::new();
    buffer.format(number) == word
}

/// Whether the word may be an option's value.
fn is_value(word: &str) -> bool
    ensures { IsTrue result ↔ IsValue word.now }
{
    match word.as_bytes() {
        [] => false,
        [first, ..] => *first != b'-',
    }
}
