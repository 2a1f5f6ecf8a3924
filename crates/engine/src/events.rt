//! What the world gives: the turns that each event begins with.

ghost use Rattle.std.specs.Prelude.{◌≡◌, false, None};
ghost use Rattle.resty_world.specs.declared.event.Event.{Event};
ghost use Rattle.engine_base.specs.declared.seats.ToCome.{ToCome};
ghost use Rattle.engine_turns.specs.Turns.{Stands};
ghost use Rattle.engine_turns.specs.Worked.{Works};
ghost use Rattle.engine.specs.Stepping.{is_stop};
ghost use Rattle.engine.specs.Events.{IsGiven, IsShown};

use engine_base::{Seat, ToCome};
use engine_turns::Turns;
use resty_base::{Id, Ms, StrandId};
use resty_world::{Entry, Event, World};
use strand_contract::{Place, Seen, Start, StrandContract};

/// A connection arrived: its strand begins, or it is turned away where as many are open as may be.
fn arrive<S: StrandContract, W: World>(
    turns: &mut Turns<S>,
    site: &S::Site,
    connection: u64,
    world: &mut W,
)
    requires { IsGiven (S.meaning site.now) turns.old (W.book world.old) (Event.Arrive connection) }
    ensures standing { Stands (S.meaning site.now) turns.new (W.book world.new) }
    ensures works { Works W.same W.book turns.old turns.new world.old world.new }
    ensures to_come { turns.new.to_come ≡ ToCome.Nothing }
{
    if u64::from(S::connections(site)) <= turns.connections {
        let _ = world.note(Entry::Turned(connection));
        world.hang_up(Id::Conn(connection));
        world.forget(StrandId::Conn(connection));
        return;
    }
    turns.connections += 1;
    match S::begin(turns.alloc, site, turns.now, Start::Client(connection)) {
        Ok((strand, acts)) => {
            let seat = Seat {
                strand,
                is_open: true,
                wanted: true,
            };
            if let Some(next) = turns.carry(connection, seat, acts, false, world) {
                turns.begin(connection, next, world);
            }
        }
        Err(_) => turns.give_up(connection, true, world),
    }
}

/// Something was given at a connection: its strand's turn.
fn come<S: StrandContract, W: World>(
    turns: &mut Turns<S>,
    site: &S::Site,
    id: Id,
    seen: Seen,
    world: &mut W,
)
    requires { IsShown (S.meaning site.now) turns.old (W.book world.old) id seen }
    ensures standing { Stands (S.meaning site.now) turns.new (W.book world.new) }
    ensures works { Works W.same W.book turns.old turns.new world.old world.new }
    ensures to_come { turns.new.to_come ≡ ToCome.Nothing }
{
    if let Id::Conn(connection) = id {
        if let Some(seat) = turns.seats.take(StrandId::Conn(connection)) {
            turns.take_turn(site, connection, seat, seen, world);
        }
    }
}

/// Ends each strand that lives, in the order in which they began.
fn end_all<S: StrandContract, W: World>(turns: &mut Turns<S>, site: &S::Site, world: &mut W)
    requires standing { Stands (S.meaning site.now) turns.old (W.book world.old) }
    requires in_offers { turns.old.in_offers ≡ false }
    requires to_come { turns.old.to_come ≡ ToCome.Endings None }
    ensures standing { Stands (S.meaning site.now) turns.new (W.book world.new) }
    ensures works { Works W.same W.book turns.old turns.new world.old world.new }
    ensures to_come { turns.new.to_come ≡ ToCome.Nothing }
{
    let mut last = None;
    while let Some(connection) = turns.seats.first_after(last) {
        last = Some(connection);
        turns.to_come = ToCome::Endings(last);
        if let Some(seat) = turns.seats.take(StrandId::Conn(connection)) {
            turns.take_turn(site, connection, seat, Seen::Stop, world);
        }
    }
    turns.to_come = ToCome::Nothing;
}

/// Takes what the world gave, up to the turns that follow, and says whether it was Stop.
pub(crate) fn take<S: StrandContract, W: World>(
    turns: &mut Turns<S>,
    site: &S::Site,
    event: Event,
    world: &mut W,
) -> bool
    requires { IsGiven (S.meaning site.now) turns.old (W.book world.old) event }
    ensures standing { Stands (S.meaning site.now) turns.new (W.book world.new) }
    ensures works { Works W.same W.book turns.old turns.new world.old world.new }
    ensures to_come { turns.new.to_come ≡ ToCome.Nothing }
    ensures stops { result ≡ is_stop event }
{
    match event {
        Event::Arrive(connection) => arrive(turns, site, connection, world),
        Event::Bytes(id, bytes) => come(turns, site, id, Seen::Bytes(Place::Client, bytes), world),
        Event::Ended(id) => come(turns, site, id, Seen::Ended(Place::Client), world),
        Event::Broken(id) => come(turns, site, id, Seen::Broken(Place::Client), world),
        Event::Ready(id) => come(turns, site, id, Seen::Ready(Place::Client), world),
        Event::Moment(now) => {
            turns.now = Ms(now.0.max(turns.now.0));
            turns.to_come = ToCome::Wakings;
            turns.wake(site, world);
        }
        Event::Stop => {
            turns.to_come = ToCome::Endings(None);
            end_all(turns, site, world);
            return true;
        }
        // No strand has a socket yet, and the others are no events.
        _ => {}
    }
    false
}
