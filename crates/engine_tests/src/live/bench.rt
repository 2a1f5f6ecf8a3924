//! A live world under test, and its clients. What goes wrong ends the test.

ghost use Rattle.std.specs.Prelude.{◌≡◌, true};

use live_world::Live;
use resty_base::{Bytes, Id, Ms, StrandId};
use resty_world::{Dial, Event, Listened, World, Wrote};
use std::io::{ErrorKind, Read, Write};
use std::net::{Ipv4Addr, Shutdown, SocketAddr, TcpStream};
use std::process::Abort;
use std::time::Clock;

/// For how many milliseconds a test waits for an event at most.
const PATIENCE: u64 = 20_000;

/// How many moments come before another event at most.
const MOMENTS: usize = 100_000;

/// A live world, and where it listens.
#[derive(Drop)]
pub struct Bench<'a, A: Abort> {
    rt: &'a A,
    host: &'a HostRuntime,
    live: Live<'a, HostRuntime, Vec<u8>>,
    at: SocketAddr,
}

/// The milliseconds since 1970.
pub fn now(rt: &impl Abort, host: &HostRuntime) -> u64 {
    let since = host.since_1970().expect(rt, "no clock");
    since
        .as_secs()
        .saturating_mul(1_000)
        .saturating_add(u64::from(since.subsec_millis()))
}

/// The loopback address with this port.
pub fn loopback(port: u16) -> SocketAddr {
    SocketAddr::from((Ipv4Addr::LOCALHOST, port))
}

impl<'a, A: Abort> Bench<'a, A> {
    /// A world that listens on a free port.
    pub fn new(rt: &'a A, host: &'a HostRuntime) -> Bench<'a, A> {
        let mut live = Live::new(host.alloc(), host, Vec::new(host.alloc()), true);
        let listened = live.listen(host.alloc(), 0);
        assert!(rt; listened == Listened::Up);
        let port = live.port().expect(rt, "no port");
        Bench {
            rt,
            host,
            live,
            at: loopback(port),
        }
    }

    /// The port on which it listens.
    pub fn port(&self) -> u16 {
        self.at.port()
    }

    /// A client, whose arrival hasn't been taken yet.
    pub fn client(&self) -> Client<'a, A> {
        let stream = TcpStream::connect(self.host, self.at).expect(self.rt, "no connection");
        stream.set_nonblocking(true).expect(self.rt, "blocking");
        Client {
            rt: self.rt,
            stream,
        }
    }

    /// The client that arrives next, which is the connection of this number.
    pub fn arrived(&mut self, number: u64) -> Client<'a, A> {
        let client = self.client();
        self.gives(Event::Arrive(number));
        client
    }

    /// The next event but for moments; where none comes for long, the last moment.
    pub fn next(&mut self) -> Event {
        let until = now(self.rt, self.host).saturating_add(PATIENCE);
        self.next_at(until)
    }

    /// The next event but for moments before this one.
    pub fn next_at(&mut self, until: u64) -> Event {
        for _ in 0..MOMENTS {
            let event = self.live.next_event(self.host.alloc(), Some(Ms(until)));
            if !is_before(&event, until) {
                return event;
            }
        }
        Event::Fault
    }

    /// The next event is this one.
    pub fn gives(&mut self, due: Event) {
        let event = self.next();
        assert!(self.rt; event == due);
    }

    /// The next event is these bytes of a connection.
    pub fn hears(&mut self, number: u64, bytes: &[u8]) {
        let due = Bytes::copy_from_slice(self.host.alloc(), bytes).expect(self.rt, "no memory");
        self.gives(Event::Bytes(Id::Conn(number), due));
    }

    /// Offers bytes to a connection; one that isn't open takes none.
    pub fn put(&mut self, number: u64, bytes: &[u8]) -> Wrote {
        let id = Id::Conn(number);
        if bytes.is_empty() || !self.live.is_open(id) {
            return Wrote::Broken;
        }
        self.live.put_bytes(self.host.alloc(), id, bytes)
    }

    /// Dials a port of the loopback address for the first connection; the socket has this number.
    pub fn dials(&mut self, port: u16, number: u64) {
        let dial = self
            .live
            .dial(self.host.alloc(), StrandId::Conn(1), [127, 0, 0, 1], port);
        assert!(self.rt; dial == Dial::Started(number));
    }

    /// Hangs up an id that is open.
    pub fn hang_up(&mut self, id: Id) {
        if self.live.is_open(id) {
            self.live.hang_up(id);
        }
    }

    /// The connection is over: it is closed and forgotten.
    pub fn finish(&mut self, number: u64) {
        self.hang_up(Id::Conn(number));
        self.forget(number);
    }

    /// A connection that is closed is forgotten.
    fn forget(&mut self, number: u64) {
        if !self.live.is_open(Id::Conn(number)) {
            self.live.forget(StrandId::Conn(number));
        }
    }

    /// Whether bytes of an open connection are wanted.
    pub fn wants(&mut self, number: u64, wanted: bool) {
        let id = Id::Conn(number);
        if self.live.is_open(id) {
            self.live.wants(id, wanted);
        }
    }
}

/// The event is a moment before this one.
fn is_before(event: &Event, until: u64) -> bool {
    match event {
        Event::Moment(now) => now.0 < until,
        _ => false,
    }
}

/// A client of the world, which doesn't wait.
#[derive(Drop)]
pub struct Client<'a, A: Abort> {
    rt: &'a A,
    stream: TcpStream,
}

impl<A: Abort> Client<'_, A> {
    /// Sends bytes.
    pub fn send(&mut self, bytes: &[u8]) {
        self.stream.write_all(bytes).expect(self.rt, "nothing sent");
    }

    /// Sends no more.
    pub fn end(&self) {
        self.stream
            .shutdown(Shutdown::Write)
            .expect(self.rt, "no shutdown");
    }

    /// From now on it waits for what it reads.
    pub fn wait(&self) {
        self.stream
            .set_nonblocking(false)
            .expect(self.rt, "not blocking");
    }

    /// How many bytes are there, at most the buffer's length; none: the peer ended, or nothing has come.
    pub fn read(&mut self, buffer: &mut [u8]) -> usize {
        match self.stream.read(buffer) {
            Ok(count) => count,
            Err(fault) => {
                assert!(self.rt; fault.kind() == ErrorKind::WouldBlock);
                0
            }
        }
    }

    /// The reply is of so many bytes, at most 16, and then the peer ended.
    pub fn reads_whole(&mut self, count: usize) {
        self.wait();
        let mut buffer = [0u8; 16];
        let first = self.read(&mut buffer);
        assert!(self.rt; first == count);
        let second = self.read(&mut buffer);
        assert!(self.rt; second == 0);
    }
}
