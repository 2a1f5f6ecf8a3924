//! Tests of `resty_world`: the history that is kept.
use resty_base::Ms;
use resty_world::*;
use std::test::Fail;

#[test]
fn a_history_takes_entries_within_its_room(rt: HostRuntime) -> Result<(), Fail> {
    let mut history = History::new(rt.alloc());
    assert!(rt; history.is_empty());
    history.reserve(2)?;
    let room = history.room();
    assert!(rt; room >= 2);
    history.push_reserved(Entry::Given(Event::Arrive(1)));
    history.push_reserved(Entry::Given(Event::Moment(Ms(5))));
    assert_eq!(rt; history.len(), 2);
    assert_eq!(rt; history.room(), room - 2);
    assert!(rt;
        matches!(
            history.as_slice(),
            [
                Entry::Given(Event::Arrive(1)),
                Entry::Given(Event::Moment(Ms(5)))
            ]
        )
    );
    Ok(())
}
