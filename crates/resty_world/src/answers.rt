//! What the calls of a world return.

/// What a write to a connection or a socket answers.
#[derive(Clone, Copy, Debug, PartialEq, Eq)]
pub enum Wrote {
    /// So many of the first bytes were taken, at least one.
    Took(usize),
    /// It would wait; the id will be ready later.
    Later,
    /// The write broke, and the bytes are lost.
    Broken,
    /// Out of memory; nothing was taken.
    Memory,
}

/// What dialling answers.
#[derive(Clone, Copy, Debug, PartialEq, Eq)]
pub enum Dial {
    /// The socket of this number was made, and connects.
    Started(u64),
    Failed,
    Memory,
}

/// What listening answers.
#[derive(Clone, Copy, Debug, PartialEq, Eq)]
pub enum Listened {
    Up,
    Failed,
    Memory,
}

/// What the writing of a log line answers.
#[derive(Clone, Copy, Debug, PartialEq, Eq)]
pub enum Logged {
    Done,
    Failed,
    Memory,
}

/// Whether there is room for a further entry.
#[derive(Clone, Copy, Debug, PartialEq, Eq)]
pub enum Noted {
    Done,
    Memory,
}

/// What `ngx.timer.at` is answered: the number of the accepted job, or why there is none.
#[derive(Clone, Copy, Debug, PartialEq, Eq)]
pub enum TimerAnswer {
    Job(u64),
    Full,
    Exiting,
}
