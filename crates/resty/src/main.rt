//! The program: it gives the commands the words, the files, the sockets, the clock and the streams of the system.
#![tactic(auto)]

use commands::{Status, put_out_of_memory, put_usage, resty};
use live_world::{Live, open_standard};
use resty_base::{DiskFiles, Sink, StdSink};
use std::env;
use std::io::{self, ErrorKind};
use std::process::ExitCode;

fn main(rt: HostRuntime) -> ExitCode {
    let mut err = StdSink::new(rt.stderr());
    let status = match words_of(&rt) {
        Ok(words) => run_words(&rt, words.as_slice(), &mut err),
        Err(fault) if fault.kind() == ErrorKind::OutOfMemory => {
            let _ = put_out_of_memory(&mut err);
            Status::Memory
        }
        Err(_) => {
            let _ = put_usage(&mut err);
            Status::Usage
        }
    };
    ExitCode::from(status.code())
}

/// The words after the program's name; one that is no text is a fault.
fn words_of(rt: &HostRuntime) -> io::Result<Vec<String>> {
    let mut words = env::args(rt)?;
    let _ = words.next();
    Ok(words.collect(rt.alloc())?)
}

/// Does what the words say with the files, the sockets and the clock of the system. Log lines go to the standard error; a standard descriptor that is
/// closed is opened first.
fn run_words<E: Sink>(rt: &HostRuntime, words: &[String], err: &mut E) -> Status {
    let may_listen = open_standard(rt).is_ok();
    let mut live = Live::new(rt.alloc(), rt, rt.stderr(), may_listen);
    let mut files = DiskFiles::new(rt);
    let mut out = StdSink::new(rt.stdout());
    resty(rt.alloc(), words, &mut files, &mut live, &mut out, err)
}
