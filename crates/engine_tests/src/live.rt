//! Tests of the live world, over loopback sockets of one process: scenes that are played on a bench. One function owns it for all tests, since
//! whatever drops it is dear to prove.
mod bench;
mod clocks;
mod connections;
mod replies;

use bench::Bench;
use std::process::Abort;

/// What is played.
#[derive(Clone, Copy)]
enum Scene {
    /// A moment that is past is given at once.
    Past,
    /// A moment to come is waited for.
    ToCome,
    /// Bytes come and then the end of a client that sends no more.
    LastBytes,
    /// Two hundred connections arrive in order and are heard.
    Many,
    /// Nothing of a connection comes after it was hung up.
    HungUp,
    /// Connections that come after others were closed are new ones.
    OneByOne,
    /// Bytes that are not wanted wait until they are.
    HeldBack,
    /// A reset is a break.
    Reset,
    /// A socket is dialled or refused.
    Dialled,
    /// A port that is in use is not listened on.
    InUse,
    /// A long reply reaches a client that reads slowly.
    ReadSlowly,
    /// Bytes come while a write is put off.
    PutOff,
    /// A reply is read whole though the client sent more than was read.
    Unread,
}

/// All scenes.
const SCENES: [Scene; 13] = [
    Scene::Past,
    Scene::ToCome,
    Scene::LastBytes,
    Scene::Many,
    Scene::HungUp,
    Scene::OneByOne,
    Scene::HeldBack,
    Scene::Reset,
    Scene::Dialled,
    Scene::InUse,
    Scene::ReadSlowly,
    Scene::PutOff,
    Scene::Unread,
];

#[test]
fn scenes_are_played(rt: HostRuntime) {
    for scene in SCENES {
        play(&rt, &rt, scene);
    }
}

/// Plays a scene on a world that has just begun.
fn play<A: Abort>(rt: &A, host: &HostRuntime, scene: Scene) {
    let mut bench = Bench::new(rt, host);
    act(rt, host, &mut bench, scene);
}

/// Does what a scene says.
fn act<A: Abort>(rt: &A, host: &HostRuntime, bench: &mut Bench<'_, A>, scene: Scene) {
    match scene {
        Scene::Past => clocks::past(rt, host, bench),
        Scene::ToCome => clocks::to_come(rt, host, bench),
        Scene::LastBytes => connections::last_bytes(bench),
        Scene::Many => connections::many(rt, host, bench),
        Scene::HungUp => connections::hung_up(bench),
        Scene::OneByOne => connections::one_by_one(bench),
        Scene::HeldBack => connections::held_back(bench),
        Scene::Reset => connections::reset(bench),
        Scene::Dialled => connections::dialled(rt, host, bench),
        Scene::InUse => connections::in_use(rt, host, bench),
        Scene::ReadSlowly => replies::read_slowly(rt, host, bench),
        Scene::PutOff => replies::put_off(rt, host, bench),
        Scene::Unread => replies::unread(rt, host, bench),
    }
}
