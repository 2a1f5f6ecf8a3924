//! How the work ends, and the statuses of the program.

ghost use Rattle.std.specs.Prelude.{◌≡◌};
ghost use Rattle.commands.specs.Ending.{code_of, ending_by, site_status, status_of};

use engine::Ended;
use site_load::SiteFault;

/// How the program ended; its exit code is the index in this list, from 0.
#[derive(Clone, Copy)]
pub enum Status {
    Done,
    /// The configuration is refused.
    Conf,
    /// The words aren't a command.
    Usage,
    /// The schedule is refused.
    Schedule,
    /// A file can't be read.
    ReadFault,
    /// The output can't be written.
    WriteFault,
    /// The world failed.
    WorldFault,
    /// As many events as were asked for were given, and none of them was Stop.
    EventsSpent,
    /// Memory ran out, or a strand was given up for that.
    Memory,
}

impl Status {
    /// The exit code.
    pub fn code(self) -> u8
        ensures { result ≡ code_of self }
    {
        self as u8
    }
}

/// How the work ended.
#[derive(Drop)]
pub enum Ending {
    Done,
    Usage,
    /// The files hold no site.
    NoSite(SiteFault),
    /// There is no such schedule.
    Missing,
    /// The schedule has more bytes than it may.
    TooLong,
    /// The schedule can't be read.
    Unreadable,
    /// This line of the schedule is no line of a schedule; lines are numbered from 1.
    BadLine(u64),
    /// This line of the schedule or of the live world names an id that was never there.
    NoSuchId(u64),
    /// The world failed.
    WorldFault,
    /// As many events as were asked for were given, and none of them was Stop.
    EventsSpent,
    NotWritten,
    /// Memory ran out.
    Memory,
}

impl Ending {
    /// How the work ends where serving ended so.
    pub fn by(ended: Ended) -> Ending
        ensures { result ≡ ending_by ended }
    {
        match ended {
            Ended::Stopped => Ending::Done,
            Ended::Spent(_) => Ending::EventsSpent,
            Ended::WorldFault => Ending::WorldFault,
            Ended::BadLine(line) => Ending::NoSuchId(line),
            Ended::Memory => Ending::Memory,
        }
    }

    /// The status that the program ends with.
    pub fn status(&self) -> Status
        ensures { result ≡ status_of self.now }
    {
        match self {
            Ending::Done => Status::Done,
            Ending::Usage => Status::Usage,
            Ending::NoSite(fault) => site_status(fault),
            Ending::Missing | Ending::TooLong | Ending::Unreadable => Status::ReadFault,
            Ending::BadLine(_) | Ending::NoSuchId(_) => Status::Schedule,
            Ending::WorldFault => Status::WorldFault,
            Ending::EventsSpent => Status::EventsSpent,
            Ending::NotWritten => Status::WriteFault,
            Ending::Memory => Status::Memory,
        }
    }
}

/// The status that the program ends with where the files hold no site.
fn site_status(fault: &SiteFault) -> Status
    ensures { result ≡ site_status fault.now }
{
    match fault {
        SiteFault::Missing(_) | SiteFault::TooLong(_) | SiteFault::Unreadable(_) => {
            Status::ReadFault
        }
        SiteFault::Refused(_, _)
        | SiteFault::NotBuilt(_, _)
        | SiteFault::TooManyModules
        | SiteFault::Init(_) => Status::Conf,
        SiteFault::Memory => Status::Memory,
    }
}
