//! A socket of the world, and what is known of its readiness.

use mio::event::Event;
use mio::net::TcpStream;
use mio::{Interest, Poll, Token};
use resty_base::Bytes;
use resty_world::Wrote;
use std::alloc::Global;
use std::collections::VecDeque;
use std::io;
use std::io::{ErrorKind, Read, Write};
use std::net::Shutdown;

/// How often a call that a signal ended is made again.
const TRIES: usize = 64;

/// What a look at a socket gives.
#[derive(Drop)]
pub enum Seen {
    Nothing,
    Bytes(Bytes),
    Ended,
    Broken,
    Ready,
    Connected,
    Refused,
}

/// What the poll reports of a socket.
#[derive(Clone, Copy)]
pub struct Report {
    /// It can be read.
    reads: bool,
    /// It can be written.
    writes: bool,
    /// Its peer sends no more.
    closes: bool,
}

impl Report {
    /// The report that an event is; a fault is reported as all of them.
    pub fn of(event: &Event) -> Report {
        let has_fault = event.is_error();
        Report {
            reads: event.is_readable() || has_fault,
            writes: event.is_writable() || has_fault,
            closes: event.is_read_closed() || has_fault,
        }
    }
}

/// A socket that is open.
#[derive(Drop)]
pub struct Stream {
    socket: TcpStream,
    /// It stands in the line of what is ready.
    pub is_in_line: bool,
    /// It connects.
    is_connecting: bool,
    /// A read may give bytes, or an end.
    can_read: bool,
    /// The peer is known to send no more; its bytes may still be there.
    is_closing: bool,
    /// Its bytes are wanted.
    is_wanted: bool,
    /// Nothing is read of it any more.
    has_ended: bool,
    /// The last write would have waited.
    is_put_off: bool,
    /// It takes bytes again.
    can_write: bool,
    /// Something was written to it.
    has_written: bool,
    /// TCP_NODELAY is set: the system sends small pieces at once.
    has_nodelay: bool,
}

impl Stream {
    /// A connection that was accepted, of which bytes may be there.
    pub fn accepted(socket: TcpStream) -> Stream {
        Stream {
            socket,
            is_in_line: false,
            is_connecting: false,
            can_read: true,
            is_closing: false,
            is_wanted: true,
            has_ended: false,
            is_put_off: false,
            can_write: true,
            has_written: false,
            has_nodelay: false,
        }
    }

    /// A socket that connects.
    pub fn connecting(socket: TcpStream) -> Stream {
        Stream {
            is_connecting: true,
            can_read: false,
            can_write: false,
            ..Stream::accepted(socket)
        }
    }

    /// Lets the poll report it under this token, both ways.
    pub fn register(&mut self, poll: &Poll, token: usize) -> io::Result<()> {
        let both = Interest::READABLE | Interest::WRITABLE;
        poll.registry()
            .register(&mut self.socket, Token(token), both)
    }

    /// The poll reports it, under this token.
    pub fn report(&mut self, report: Report, line: &mut VecDeque<usize>, token: usize) {
        self.can_read |= report.reads || report.closes;
        self.can_write |= report.writes;
        self.is_closing |= report.closes;
        self.line_up(line, token);
    }

    /// Puts it into the line, where a look at it may give something and it isn't there.
    pub fn line_up(&mut self, line: &mut VecDeque<usize>, token: usize) {
        if !self.is_in_line && self.is_ready() {
            self.is_in_line = line.push_back(token).is_ok();
        }
    }

    pub fn want(&mut self, wanted: bool) {
        self.is_wanted = wanted;
    }

    /// Whether a look at it may give something.
    pub fn is_ready(&self) -> bool {
        if self.is_connecting {
            return self.can_write;
        }
        self.is_put_off && self.can_write || self.has_bytes()
    }

    /// Whether a read may give something that is wanted.
    fn has_bytes(&self) -> bool {
        self.can_read && self.is_wanted && !self.has_ended
    }

    /// Looks at it: whether it is connected, takes bytes again, or has bytes.
    pub fn look(&mut self, alloc: Global, buffer: &mut [u8]) -> Seen {
        if self.is_connecting {
            return self.finish_connect();
        }
        if self.is_put_off && self.can_write {
            self.is_put_off = false;
            return Seen::Ready;
        }
        if self.has_bytes() {
            return self.read(alloc, buffer);
        }
        Seen::Nothing
    }

    /// Whether it is connected now, or why not.
    fn finish_connect(&mut self) -> Seen {
        if !self.can_write {
            return Seen::Nothing;
        }
        self.is_connecting = false;
        match (self.socket.take_error(), self.socket.peer_addr()) {
            (Ok(None), Ok(_)) => {
                self.can_read = true;
                Seen::Connected
            }
            (Ok(Some(fault)), _) if fault.kind() == ErrorKind::ConnectionRefused => Seen::Refused,
            _ => self.break_off(),
        }
    }

    /// Reads what is there.
    fn read(&mut self, alloc: Global, buffer: &mut [u8]) -> Seen {
        match self.socket.read(buffer) {
            Ok(0) => {
                self.has_ended = true;
                Seen::Ended
            }
            Ok(count) => {
                self.can_read = self.is_closing || count >= buffer.len();
                self.keep(alloc, &buffer[..count])
            }
            Err(fault) if fault.kind() == ErrorKind::WouldBlock => {
                self.can_read = false;
                Seen::Nothing
            }
            Err(fault) if fault.kind() == ErrorKind::Interrupted => Seen::Nothing,
            Err(_) => self.break_off(),
        }
    }

    /// The bytes; without memory for them it breaks.
    fn keep(&mut self, alloc: Global, bytes: &[u8]) -> Seen {
        match Bytes::copy_from_slice(alloc, bytes) {
            Ok(bytes) => Seen::Bytes(bytes),
            Err(_) => self.break_off(),
        }
    }

    fn break_off(&mut self) -> Seen {
        self.has_ended = true;
        Seen::Broken
    }

    /// Sets TCP_NODELAY from the second write on, so that the system sends small pieces at once. The first it sends at once in any
    /// case, and many connections have no other.
    fn set_nodelay(&mut self) {
        if self.has_written && !self.has_nodelay {
            self.has_nodelay = true;
            let _ = self.socket.set_nodelay(true);
        }
        self.has_written = true;
    }

    /// Writes a first part of the bytes.
    pub fn write(&mut self, bytes: &[u8]) -> Wrote {
        self.set_nodelay();
        for _ in 0..TRIES {
            match self.socket.write(bytes) {
                Ok(0) => return Wrote::Broken,
                Ok(count) => return Wrote::Took(count),
                Err(fault) if fault.kind() == ErrorKind::WouldBlock => {
                    self.is_put_off = true;
                    self.can_write = false;
                    return Wrote::Later;
                }
                Err(fault) if fault.kind() == ErrorKind::Interrupted => {}
                Err(_) => return Wrote::Broken,
            }
        }
        Wrote::Broken
    }

    /// Closes it. Where the peer may still send, only this side's sending is shut down, and what comes is to be drained.
    pub fn close(self) -> Option<Drained> {
        if self.has_ended || self.socket.shutdown(Shutdown::Write).is_err() {
            return None;
        }
        Some(Drained {
            socket: self.socket,
            is_in_line: self.is_in_line,
            can_read: self.can_read,
            until: 0,
        })
    }
}

/// A socket that was shut down for writing, of which what comes is thrown away for a while, so that the peer isn't reset before it
/// read the rest.
#[derive(Drop)]
pub struct Drained {
    socket: TcpStream,
    pub is_in_line: bool,
    pub can_read: bool,
    /// The moment at which it is closed.
    pub until: u64,
}

impl Drained {
    /// The poll reports it, under this token.
    pub fn report(&mut self, report: Report, line: &mut VecDeque<usize>, token: usize) {
        self.can_read |= report.reads || report.closes;
        self.line_up(line, token);
    }

    /// Puts it into the line, where something may come and it isn't there.
    pub fn line_up(&mut self, line: &mut VecDeque<usize>, token: usize) {
        if !self.is_in_line && self.can_read {
            self.is_in_line = line.push_back(token).is_ok();
        }
    }

    /// Throws away what is there: whether more may come.
    pub fn drain(&mut self, buffer: &mut [u8]) -> bool {
        match self.socket.read(buffer) {
            Ok(0) => false,
            Ok(_) => true,
            Err(fault) if fault.kind() == ErrorKind::WouldBlock => {
                self.can_read = false;
                true
            }
            Err(fault) => fault.kind() == ErrorKind::Interrupted,
        }
    }
}
