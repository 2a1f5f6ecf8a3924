//! The sockets of the world: what the poll reports of them stands in a line, each once, and the first gives one event.

use crate::stream::{Drained, Report, Seen, Stream};
use indexmap::IndexMap;
use mio::net::{TcpListener, TcpStream};
use mio::{Events, Interest, Poll, Token};
use resty_world::Wrote;
use std::alloc::{AllocError, Global};
use std::collections::VecDeque;
use std::io;
use std::io::ErrorKind;
use std::net::{Ipv4Addr, Net, SocketAddr};
use std::time::Duration;

/// The most bytes that are read at a time: what a client has sent at once doesn't keep the others waiting for all of it.
const PIECE: usize = 4_096;

/// How many reports a poll gives at most.
const REPORTS: usize = 1_024;

/// How many sockets are drained at a time, and for how many milliseconds each.
const DRAINED: usize = 1_024;

const DRAINING: u64 = 2_000;

/// After how many milliseconds it accepts again, where there was no descriptor for a connection.
const PAUSE: u64 = 100;

/// The token of the listener; those of connections and sockets are above it.
pub const LISTENER: usize = 0;

/// What the first in the line gives.
#[derive(Drop)]
pub enum Next {
    Nothing,
    Accepted(TcpStream),
    Seen(usize, Seen),
}

#[derive(Drop)]
pub struct Sockets {
    poll: Poll,
    events: Events<Global>,
    listener: TcpListener,
    streams: IndexMap<usize, Stream>,
    drained: IndexMap<usize, Drained>,
    line: VecDeque<usize>,
    /// How many of the line are still to be looked at before it polls again.
    round: usize,
    is_listener_in_line: bool,
    /// The moment at which it accepts again, where there was no descriptor for a connection.
    paused_until: Option<u64>,
    buffer: Vec<u8>,
}

/// The memory that sockets take before they listen.
#[derive(Drop)]
struct Room {
    buffer: Vec<u8>,
    /// It has room for the listener.
    line: VecDeque<usize>,
    events: Events<Global>,
}

impl Room {
    fn new(alloc: Global) -> Result<Room, AllocError> {
        let buffer = vec![in alloc; 0; PIECE]?;
        let mut line = VecDeque::new(alloc);
        line.reserve(1)?;
        let events = Events::with_capacity(alloc, REPORTS)?;
        Ok(Room {
            buffer,
            line,
            events,
        })
    }
}

/// Why there are no sockets.
#[derive(Clone, Copy)]
pub enum Failure {
    Memory,
    Failed,
}

impl From<AllocError> for Failure {
    fn from(_fault: AllocError) -> Failure {
        Failure::Memory
    }
}

impl From<io::Error> for Failure {
    fn from(_fault: io::Error) -> Failure {
        Failure::Failed
    }
}

impl Sockets {
    /// Listens on the port of the loopback address.
    pub fn listen(net: &impl Net, alloc: Global, port: u16) -> Result<Sockets, Failure> {
        let room = Room::new(alloc)?;
        match polled_listener(net, port) {
            Ok((poll, listener)) => Ok(Sockets::of(alloc, room, poll, listener)),
            Err(fault) => {
                drop(room);
                Err(Failure::from(fault))
            }
        }
    }

    /// Those of a listener, and of no connection yet; takes no memory.
    fn of(alloc: Global, room: Room, poll: Poll, listener: TcpListener) -> Sockets {
        Sockets {
            poll,
            events: room.events,
            listener,
            streams: IndexMap::new(alloc),
            drained: IndexMap::new(alloc),
            line: room.line,
            round: 0,
            is_listener_in_line: false,
            paused_until: None,
            buffer: room.buffer,
        }
    }

    /// The port that it listens on.
    pub fn port(&self) -> io::Result<u16> {
        Ok(self.listener.local_addr()?.port())
    }

    /// Whether the first in the line may be looked at; else it is to poll.
    pub fn has_next(&self) -> bool {
        self.round > 0 && !self.line.is_empty()
    }

    /// Polls, and waits until the given moment at most where nothing is ready.
    pub fn poll(&mut self, now: u64, until: Option<u64>) -> io::Result<()> {
        self.tidy(now);
        let timeout = if self.line.is_empty() {
            self.wake_at(until)
                .map(|at| Duration::from_millis(at.saturating_sub(now)))
        } else {
            Some(Duration::from_millis(0))
        };
        self.poll.poll(&mut self.events, timeout)?;
        self.take_reports();
        self.round = self.line.len();
        Ok(())
    }

    /// The moment up to which the poll may wait.
    fn wake_at(&self, until: Option<u64>) -> Option<u64> {
        let drained = match self.drained.get_index(0) {
            Some((_, first)) => Some(first.until),
            None => None,
        };
        earlier(until, earlier(drained, self.paused_until))
    }

    /// Closes the sockets that were drained long enough, and accepts again after a pause.
    fn tidy(&mut self, now: u64) {
        for _ in 0..self.drained.len() {
            match self.drained.get_index(0) {
                Some((_, first)) if first.until <= now => {}
                _ => break,
            }
            self.drained.shift_remove_index(0);
        }
        match self.paused_until {
            Some(at) if at <= now => self.resume_accept(),
            _ => {}
        }
    }

    /// Puts what the poll reports into the line.
    fn take_reports(&mut self) {
        for event in self.events.iter() {
            let token = event.token().0;
            let report = Report::of(event);
            if token == LISTENER {
                if !self.is_listener_in_line && self.paused_until.is_none() {
                    self.is_listener_in_line = self.line.push_back(LISTENER).is_ok();
                }
            } else {
                report_to(
                    &mut self.streams,
                    &mut self.drained,
                    &mut self.line,
                    token,
                    report,
                );
            }
        }
    }

    /// Looks at the first in the line, and puts it to the end where more may come of it.
    pub fn next(&mut self, alloc: Global, now: u64) -> Next {
        self.round = self.round.saturating_sub(1);
        match self.line.pop_front() {
            Some(LISTENER) => self.accept(now),
            Some(token) => self.look(alloc, token),
            None => Next::Nothing,
        }
    }

    /// Accepts a connection.
    fn accept(&mut self, now: u64) -> Next {
        self.is_listener_in_line = false;
        match self.listener.accept() {
            Ok((socket, _)) => {
                self.put_listener_in_line();
                Next::Accepted(socket)
            }
            Err(fault) => {
                self.accept_failed(fault.kind(), now);
                Next::Nothing
            }
        }
    }

    /// A connection that was given up, or a signal: the next is accepted. Nothing there: the poll reports it. Else, as where there is
    /// no descriptor, after a pause, or once a socket was closed.
    fn accept_failed(&mut self, kind: ErrorKind, now: u64) {
        match kind {
            ErrorKind::WouldBlock => {}
            ErrorKind::ConnectionAborted | ErrorKind::Interrupted => self.put_listener_in_line(),
            _ => self.paused_until = Some(now.saturating_add(PAUSE)),
        }
    }

    fn put_listener_in_line(&mut self) {
        if !self.is_listener_in_line {
            self.is_listener_in_line = self.line.push_back(LISTENER).is_ok();
        }
    }

    /// Accepts again after a pause.
    fn resume_accept(&mut self) {
        self.paused_until = None;
        self.put_listener_in_line();
    }

    /// Looks at an open socket, or drains one that was closed.
    fn look(&mut self, alloc: Global, token: usize) -> Next {
        if let Some(stream) = self.streams.get_mut(&token) {
            let seen = stream.look(alloc, self.buffer.as_mut_slice());
            stream.is_in_line = stream.is_ready() && self.line.push_back(token).is_ok();
            return Next::Seen(token, seen);
        }
        self.drain(token);
        Next::Nothing
    }

    fn drain(&mut self, token: usize) {
        let Some(drained) = self.drained.get_mut(&token) else {
            return;
        };
        let goes_on = drained.drain(self.buffer.as_mut_slice());
        drained.is_in_line = goes_on && drained.can_read && self.line.push_back(token).is_ok();
        if !goes_on {
            self.drained.shift_remove(&token);
        }
    }

    /// Registers a connection that was accepted under this token, and looks at it in its turn. Without memory, or where it can't be
    /// polled, it is closed.
    pub fn register(&mut self, token: usize, socket: TcpStream) -> Result<(), Failure> {
        self.add(token, Stream::accepted(socket))
    }

    /// Connects to a host and a port under this token.
    pub fn connect(&mut self, net: &impl Net, token: usize, at: SocketAddr) -> Result<(), Failure> {
        let socket = TcpStream::connect(net, at)?;
        self.add(token, Stream::connecting(socket))
    }

    /// Adds a socket that can be polled; another one is closed.
    fn add(&mut self, token: usize, mut stream: Stream) -> Result<(), Failure> {
        match self.admit(token, &mut stream) {
            Ok(()) => {
                drop(self.streams.insert(token, stream));
                Ok(())
            }
            Err(failure) => {
                drop(stream);
                Err(failure)
            }
        }
    }

    /// Lets the poll report a socket. Each that is open or drained has room in the line, and one more is the listener.
    fn admit(&mut self, token: usize, stream: &mut Stream) -> Result<(), Failure> {
        self.streams.reserve(1)?;
        self.line.reserve(
            self.streams
                .len()
                .saturating_add(self.drained.len())
                .saturating_add(2),
        )?;
        stream.register(&self.poll, token)?;
        stream.line_up(&mut self.line, token);
        Ok(())
    }

    /// Writes a first part of the bytes.
    pub fn write(&mut self, token: usize, bytes: &[u8]) -> Wrote {
        match self.streams.get_mut(&token) {
            Some(stream) => stream.write(bytes),
            None => Wrote::Broken,
        }
    }

    /// Its bytes are wanted, or not.
    pub fn want(&mut self, token: usize, wanted: bool) {
        let Some(stream) = self.streams.get_mut(&token) else {
            return;
        };
        stream.want(wanted);
        stream.line_up(&mut self.line, token);
    }

    /// Closes a socket: where the peer may still send, what it sends is drained for a while.
    pub fn close(&mut self, token: usize, now: u64) {
        let Some(stream) = self.streams.swap_remove(&token) else {
            return;
        };
        if let Some(drained) = stream.close() {
            self.begin_draining(token, drained, now);
        }
        if self.paused_until.is_some() {
            self.resume_accept();
        }
    }

    /// Drains a socket; where there are too many, the first of them is closed.
    fn begin_draining(&mut self, token: usize, mut drained: Drained, now: u64) {
        drained.until = now.saturating_add(DRAINING);
        if self.drained.len() >= DRAINED {
            self.drained.shift_remove_index(0);
        }
        drained.line_up(&mut self.line, token);
        let _ = self.drained.insert(token, drained);
    }
}

/// The poll reports a socket, open or drained, if there is one of this token.
fn report_to(
    streams: &mut IndexMap<usize, Stream>,
    drained: &mut IndexMap<usize, Drained>,
    line: &mut VecDeque<usize>,
    token: usize,
    report: Report,
) {
    if let Some(stream) = streams.get_mut(&token) {
        stream.report(report, line, token);
    } else if let Some(drained) = drained.get_mut(&token) {
        drained.report(report, line, token);
    }
}

/// A poll, and the listener of the port of the loopback address that it reports.
fn polled_listener(net: &impl Net, port: u16) -> io::Result<(Poll, TcpListener)> {
    let poll = Poll::new(net)?;
    match listener_on(net, &poll, port) {
        Ok(listener) => Ok((poll, listener)),
        Err(fault) => {
            drop(poll);
            Err(fault)
        }
    }
}

/// The listener of the port of the loopback address, which the poll reports.
fn listener_on(net: &impl Net, poll: &Poll, port: u16) -> io::Result<TcpListener> {
    let mut listener = TcpListener::bind(net, SocketAddr::from((Ipv4Addr::LOCALHOST, port)))?;
    let token = Token(LISTENER);
    match poll
        .registry()
        .register(&mut listener, token, Interest::READABLE)
    {
        Ok(()) => Ok(listener),
        Err(fault) => {
            drop(listener);
            Err(fault)
        }
    }
}

/// The earlier of two moments that may not be there.
fn earlier(one: Option<u64>, other: Option<u64>) -> Option<u64> {
    match (one, other) {
        (Some(one), Some(other)) => Some(one.min(other)),
        (Some(at), None) | (None, Some(at)) => Some(at),
        (None, None) => None,
    }
}
