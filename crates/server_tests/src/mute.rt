//! Tests of `strand_contract`: the strand that says nothing.
use resty_base::{Bytes, Ms};
use std::test::Fail;
use strand_contract::*;

#[test]
fn a_mute_strand_begins_with_nothing_to_do(rt: HostRuntime) -> Result<(), Fail> {
    let alloc = rt.alloc();
    let site = MuteSite;
    assert_eq!(rt; Mute::connections(&site), 512);
    let (strand, acts) = Mute::begin(alloc, &site, Ms(3), Start::Client(1))?;
    assert!(rt; acts.is_empty());
    assert!(rt; strand.queued(&site, Place::Client).is_empty());
    Ok(())
}

#[test]
fn a_mute_strand_hangs_up_at_stop_and_is_gone(rt: HostRuntime) -> Result<(), Fail> {
    let alloc = rt.alloc();
    let site = MuteSite;
    let now = Ms(3);
    let (mut strand, acts) = Mute::begin(alloc, &site, now, Start::Client(1))?;
    assert!(rt; acts.is_empty());
    let came = Seen::Bytes(Place::Client, Bytes::from_static(b"x"));
    let acts = strand.given(alloc, &site, now, came)?;
    assert!(rt; acts.is_empty());
    let acts = strand.given(alloc, &site, now, Seen::Stop)?;
    assert_eq!(rt;
        format!(in alloc; "{acts:?}")?.as_str(),
        "[HangUp(Client), Gone]"
    );
    Ok(())
}
