//! What is kept of a client.

ghost use Rattle.std.specs.Prelude.{◌≡◌};
ghost use Rattle.connection_plan.specs.Timers as timers;

use client_line::{Held, Line};
use connection_plan::Times;
use http_bodies::BodyRead;
use resty_base::{Bytes, Ms};
use run_contract::{LocationTimes, RunSeen};
use std::alloc::{AllocError, Global};

/// How far the client's request is.
#[derive(Clone, Copy)]
pub(crate) enum Stage {
    /// The next head is due, and none of its bytes came.
    Idle,
    /// A head is due: some of its bytes came, or it is the first one.
    Head,
    /// A run answers the request, or is the job.
    Busy,
    /// The run is over, or the head was refused, and the reply isn't wholly taken.
    Flush,
    /// The reply is taken, and the rest of the request's body is dropped as it comes.
    Drop,
    /// The life is over.
    Over,
}

/// How far the reply is.
#[derive(Clone, Copy)]
pub(crate) enum Reply {
    Unsent,
    Begun,
    /// It is whole, and whether the connection closes after it.
    Whole(bool),
}

impl Reply {
    ghost use Rattle.std.specs.Prelude.{◌≡◌};
    ghost use Rattle.connection_plan.specs.Clients as spec;
    ghost use Rattle.connection_strand.specs.Kept.{reply_of};

    /// More of it is sent.
    pub(crate) fn begun(self) -> Reply
        ensures { reply_of result ≡ spec.begun (reply_of self) }
    {
        match self {
            Reply::Unsent => Reply::Begun,
            Reply::Begun | Reply::Whole(_) => self,
        }
    }

    /// Whether the connection closes after it; without a whole one it does.
    pub(crate) fn closes_after(self) -> bool
        ensures { result ≡ spec.closes_after (reply_of self) }
    {
        match self {
            Reply::Whole(closes) => closes,
            Reply::Unsent | Reply::Begun => true,
        }
    }

    /// Whether it is whole, and the connection closes after it.
    pub(crate) fn is_last(self) -> bool
        ensures { result ≡ spec.is_last (reply_of self) }
    {
        match self {
            Reply::Whole(closes) => closes,
            Reply::Unsent | Reply::Begun => false,
        }
    }
}

/// The timers of a connection; the last has the deadline 1, and one of the others at a time the deadline 0.
#[derive(Clone, Copy)]
pub(crate) enum Timer {
    Header,
    Keepalive,
    Body,
    Send,
}

impl Timer {
    ghost use Rattle.std.specs.Prelude.{◌≡◌};
    ghost use Rattle.connection_plan.specs.Serving as serving;
    ghost use Rattle.connection_strand.specs.Kept.{timer_of};

    /// The deadline by which it is kept.
    pub(crate) fn number(self) -> u32
        ensures { result ≡ timers.number_of (timer_of self) }
    {
        match self {
            Timer::Send => 1,
            Timer::Header | Timer::Keepalive | Timer::Body => 0,
        }
    }

    /// How long it runs, by the times of the default server and those of the request.
    pub(crate) fn time(self, default_times: Times, times: Times) -> Ms
        ensures { result.0 ≡ timers.time_of (serving.times default_times) (serving.times times) (timer_of self) }
    {
        match self {
            Timer::Header => default_times.header,
            Timer::Keepalive => times.keepalive,
            Timer::Body => times.body,
            Timer::Send => times.send,
        }
    }
}

/// So long after now.
pub(crate) fn later(now: Ms, time: Ms) -> Ms
    ensures { result ≡ timers.later now.0 time.0 }
{
    Ms(now.0.saturating_add(time.0))
}

/// What is kept of a client; of a job's place, that it isn't there.
#[derive(Drop)]
pub(crate) struct Client {
    /// What came, and what is left to be sent.
    pub(crate) line: Line,
    pub(crate) stage: Stage,
    /// The times of the request.
    pub(crate) times: Times,
    pub(crate) reply: Reply,
    /// The most bytes that the body may have for which the run waits.
    pub(crate) limit: u64,
    /// It waits for a 100 reply before it sends the body.
    pub(crate) expects: bool,
    /// More of the body was waited for while nothing of the reply was sent.
    pub(crate) waited: bool,
    /// It sends no more.
    pub(crate) has_ended: bool,
    /// It isn't hung up.
    pub(crate) is_open: bool,
    /// It takes no bytes for now.
    pub(crate) is_put_off: bool,
    /// The deadline 0 is armed.
    pub(crate) is_waiting: bool,
    /// The deadline 1 is armed.
    pub(crate) is_sending: bool,
}

impl Client {
    ghost use Rattle.std.specs.Prelude.{not, false, ◌≡◌, ◌&&◌, if◌then◌else◌, IfOk};
    ghost use Rattle.client_line.specs.Lines.{after_asked, body_answer, held_in};
    ghost use Rattle.send_queue.specs.Queues as queues;
    ghost use Rattle.connection_plan.specs.Clients.{is_last};
    ghost use Rattle.connection_plan.specs.Clients as stage;
    ghost use Rattle.connection_plan.specs.Turns.{is_more};
    ghost use Rattle.connection_plan.specs.Serving as serving;
    ghost use Rattle.connection_strand.specs.Kept.{kept, timer_of, fresh, with_armed, is_armed, with_times, all_taken, wants_offer};
    ghost use Rattle.connection_strand.specs.Kept.{seen_of_body, seen_of_taken, stage_waiting, timer_waiting};

    /// As a connection begins, for a client or for a job; takes no memory.
    pub(crate) fn new(alloc: Global, times: Times, is_open: bool) -> Client
        ensures { kept result ≡ fresh (serving.times times) is_open }
    {
        let mut line = Line::new(alloc);
        if !is_open {
            line.gone();
        }
        Client {
            line,
            stage: Stage::Head,
            times,
            reply: Reply::Unsent,
            limit: 0,
            expects: false,
            waited: false,
            has_ended: false,
            is_open,
            is_put_off: false,
            is_waiting: false,
            is_sending: false,
        }
    }

    /// A request begins: its times, and whether the client waits for a 100 reply.
    pub(crate) fn begin_request(&mut self, times: Times, expects: bool)
        ensures { kept self.new
            ≡ record (kept self.old) { stage = stage.Busy; times = serving.times times; reply = stage.Unsent; expects = expects; waited = false } }
    {
        self.stage = Stage::Busy;
        self.times = times;
        self.reply = Reply::Unsent;
        self.expects = expects;
        self.waited = false;
    }

    /// Another location answers the request: its times count from now on.
    pub(crate) fn set_times(&mut self, times: LocationTimes)
        ensures { kept self.new ≡ with_times times (kept self.old) }
    {
        self.times.keepalive = times.keepalive;
        self.times.body = times.body;
        self.times.send = times.send;
    }

    /// The timer's deadline is armed, or not.
    pub(crate) fn set_armed(&mut self, timer: Timer, is_armed: bool)
        ensures { kept self.new ≡ with_armed (timer_of timer) is_armed (kept self.old) }
    {
        match timer {
            Timer::Send => self.is_sending = is_armed,
            Timer::Header | Timer::Keepalive | Timer::Body => self.is_waiting = is_armed,
        }
    }

    /// Whether the timer's deadline is armed.
    pub(crate) fn is_armed(&self, timer: Timer) -> bool
        ensures { result ≡ is_armed (timer_of timer) (kept self.now) }
    {
        match timer {
            Timer::Send => self.is_sending,
            Timer::Header | Timer::Keepalive | Timer::Body => self.is_waiting,
        }
    }

    /// What is waited for: more of a body that is dropped, the first byte of a head, or the rest of one. It returns the timer that runs.
    pub(crate) fn wait(&mut self) -> Timer
        ensures stage { kept self.new ≡ record (kept self.old) { stage = stage_waiting (held_in (kept self.old).came.at (kept self.old).came.held) } }
        ensures timer { timer_of result ≡ timer_waiting (held_in (kept self.old).came.at (kept self.old).came.held) }
    {
        match self.line.held() {
            Held::Body => {
                self.stage = Stage::Drop;
                Timer::Body
            }
            Held::Nothing => {
                self.stage = Stage::Idle;
                Timer::Keepalive
            }
            Held::Request | Held::Begun => {
                self.stage = Stage::Head;
                Timer::Header
            }
        }
    }

    /// Whether nothing of what was sent is left to be taken.
    pub(crate) fn is_all_taken(&self) -> bool
        ensures { result ≡ all_taken (kept self.now) }
    {
        !self.is_open || self.line.is_all_sent()
    }

    /// Whether the connection is to be closed: all of a last reply is taken.
    pub(crate) fn is_to_close(&self) -> bool
        ensures { result ≡ (all_taken (kept self.now) && (kept self.now).opened && is_last (kept self.now).reply) }
    {
        self.is_all_taken() && self.is_open && self.reply.is_last()
    }

    /// Whether something is left to be taken, and the client takes bytes.
    pub(crate) fn wants_offer(&self) -> bool
        ensures { result ≡ wants_offer (kept self.now) }
    {
        self.is_open && !self.line.is_all_sent() && !self.is_put_off
    }

    /// Whether more of the present body is to come, and may come.
    pub(crate) fn awaits_body(&self) -> bool
        ensures { result ≡ ((kept self.now).opened && not (kept self.now).ended && is_more (body_answer (kept self.now).came (kept self.now).limit)) }
    {
        self.is_open && !self.has_ended && self.line.waits_for_body(self.limit)
    }

    /// What a run is told of the body that it waits for: nothing while more may come. What is there of the body is taken.
    pub(crate) fn body_seen(&mut self, alloc: Global) -> Result<Option<RunSeen>, AllocError>
        ensures seen { IfOk result (λ seen. seen ≡ seen_of_body (kept self.old)) }
        ensures taken { IfOk result (λ seen. kept self.new ≡ record (kept self.old) { came = after_asked (kept self.old).came (kept self.old).limit }) }
    {
        match self.line.body(self.limit) {
            BodyRead::Whole(_) => {
                match Bytes::copy_from_slice(alloc, self.line.body_bytes()) {
                    Ok(content) => Ok(Some(RunSeen::Body(content, self.waited))),
                    Err(error) => Err(error),
                }
            }
            BodyRead::Refused(code) => Ok(Some(RunSeen::BodyRefused(code))),
            BodyRead::More if self.is_open && !self.has_ended => Ok(None),
            BodyRead::More => Ok(Some(RunSeen::BodyRefused(400))),
            BodyRead::Memory => Err(AllocError),
        }
    }

    /// What a run is told that asks whether all that was sent is taken.
    pub(crate) fn taken_seen(&self) -> RunSeen
        ensures { result ≡ seen_of_taken (kept self.now) }
    {
        if self.is_all_taken() {
            RunSeen::AllTaken
        } else {
            RunSeen::NotYet
        }
    }

    /// It is hung up, where it is there.
    pub(crate) fn hang_up(&mut self)
        ensures { kept self.new
            ≡ (if self.old.is_open then record (kept self.old) { opened = false; sending = queues.dropped (kept self.old).sending } else kept self.old) }
    {
        if self.is_open {
            self.is_open = false;
            self.line.gone();
        }
    }
}
