//! Connections: their order, their ends, and what comes of them after they were hung up.

use super::bench::{Bench, Client, loopback};
use live_world::Live;
use resty_base::Id;
use resty_world::{Event, Listened, World};
use std::alloc::Global;
use std::net::TcpListener;
use std::process::Abort;

pub(super) fn last_bytes<A: Abort>(bench: &mut Bench<'_, A>) {
    let mut client = bench.arrived(1);
    client.send(b"GET");
    bench.hears(1, b"GET");
    client.end();
    bench.gives(Event::Ended(Id::Conn(1)));
    let _ = bench.put(1, b"hi");
    bench.finish(1);
    client.reads_whole(2);
}

/// Two hundred clients, each of which has sent a byte.
fn two_hundred<'a, A: Abort>(bench: &Bench<'a, A>, rt: &A, alloc: Global) -> Vec<Client<'a, A>> {
    let mut clients = Vec::new(alloc);
    for _ in 0..200 {
        let mut client = bench.client();
        client.send(b"x");
        clients.push(client).expect(rt, "no memory");
    }
    clients
}

/// How many clients have arrived, and how many bytes were heard.
#[derive(Clone, Copy)]
struct Count {
    arrived: u64,
    heard: u64,
}

/// The count after one more event; none: the event isn't a next arrival, or the byte of a client that has arrived.
fn counted(count: Count, event: &Event) -> Option<Count> {
    match event {
        Event::Arrive(number) if *number == count.arrived.saturating_add(1) => Some(Count {
            arrived: *number,
            heard: count.heard,
        }),
        Event::Bytes(Id::Conn(number), bytes) if *number <= count.arrived && bytes.len() == 1 => {
            Some(Count {
                arrived: count.arrived,
                heard: count.heard.saturating_add(1),
            })
        }
        _ => None,
    }
}

/// The count of the next events, so many of them.
fn count_events<A: Abort>(bench: &mut Bench<'_, A>, rt: &A, events: usize) -> Count {
    let mut count = Count {
        arrived: 0,
        heard: 0,
    };
    for _ in 0..events {
        let event = bench.next();
        count = counted(count, &event).expect(rt, "neither an arrival nor a byte");
    }
    count
}

pub(super) fn many<A: Abort>(rt: &A, host: &HostRuntime, bench: &mut Bench<'_, A>) {
    let clients = two_hundred(bench, rt, host.alloc());
    let count = count_events(bench, rt, 400);
    assert!(rt; clients.len() == 200 && count.arrived == 200 && count.heard == 200);
}

pub(super) fn hung_up<A: Abort>(bench: &mut Bench<'_, A>) {
    let mut first = bench.arrived(1);
    first.send(b"one");
    bench.finish(1);
    first.send(b"two");
    let mut second = bench.arrived(2);
    second.send(b"x");
    bench.hears(2, b"x");
    second.end();
    bench.gives(Event::Ended(Id::Conn(2)));
}

pub(super) fn one_by_one<A: Abort>(bench: &mut Bench<'_, A>) {
    for number in 1..=50u64 {
        let mut client = bench.arrived(number);
        client.send(b"x");
        bench.hears(number, b"x");
        bench.finish(number);
    }
}

pub(super) fn held_back<A: Abort>(bench: &mut Bench<'_, A>) {
    let mut first = bench.arrived(1);
    bench.wants(1, false);
    first.send(b"one");
    let mut second = bench.arrived(2);
    second.send(b"x");
    bench.hears(2, b"x");
    bench.wants(1, true);
    bench.hears(1, b"one");
}

pub(super) fn reset<A: Abort>(bench: &mut Bench<'_, A>) {
    let client = bench.arrived(1);
    let _ = bench.put(1, b"unread");
    drop(client);
    bench.gives(Event::Broken(Id::Conn(1)));
    bench.finish(1);
}

/// A listener of the system's, for the world to dial.
fn listener(rt: &impl Abort, host: &HostRuntime) -> TcpListener {
    TcpListener::bind(host, loopback(0)).expect(rt, "not listening")
}

pub(super) fn dialled<A: Abort>(rt: &A, host: &HostRuntime, bench: &mut Bench<'_, A>) {
    let peer = listener(rt, host);
    let port = peer.local_addr().expect(rt, "no address").port();
    bench.dials(port, 1);
    bench.gives(Event::Dialled(1));
    bench.hang_up(Id::Sock(1));
    drop(peer);
    bench.dials(port, 2);
    bench.gives(Event::Refused(2));
    bench.hang_up(Id::Sock(2));
}

pub(super) fn in_use<A: Abort>(rt: &A, host: &HostRuntime, bench: &mut Bench<'_, A>) {
    let mut other = Live::new(host.alloc(), host, Vec::<u8>::new(host.alloc()), true);
    let listened = other.listen(host.alloc(), bench.port());
    assert!(rt; listened == Listened::Failed);
}
