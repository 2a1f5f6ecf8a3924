//! Texts by the values that they say; `;` is the end of a line.

/// Entries: events, those of a world and those of a strand.
pub(super) const ENTRIES: &str = r#"entries arrive c3; => [Given(Arrive(3))]
entries bytes s2 "a\"\\\n\r\x09\x7f\xffz ~"; => [Given(Bytes(Sock(2), b"a\"\\\n\r\t\x7f\xffz ~"))]
entries ended c1; => [Given(Ended(Conn(1)))]
entries broken s1; => [Given(Broken(Sock(1)))]
entries ready c12; => [Given(Ready(Conn(12)))]
entries dialled s4; => [Given(Dialled(4))]
entries refused s5; => [Given(Refused(5))]
entries moment 99999999999999; => [Given(Moment(Ms(99999999999999)))]
entries stop; => [Given(Stop)]
entries put c1 "H"; => [Put(Conn(1), b"H")]
entries put c1 "a\x00"; => [Put(Conn(1), b"a\0")]
entries put c1 "a\x00\n\r\"\\\x7f\xff~ "; => [Put(Conn(1), b"a\0\n\r\"\\\x7f\xff~ ")]
entries later s7; => [Later(Sock(7))]
entries lost c1; => [Lost(Conn(1))]
entries close s3; => [Close(Sock(3))]
entries start t1; => [Start(1)]
entries turned c2; => [Turned(2)]
entries dropped t3; => [Dropped(Job(3))]
entries take c2 "A:9000" = none; => [Take(Conn(2), b"A:9000", None)]
entries take c2 "A" = s2 1; => [Take(Conn(2), b"A", Some((2, 1)))]
entries keep c2 s2 "A" 60000 30 = kept; => [Keep(Conn(2), 2, b"A", Ms(60000), 30, None)]
entries keep c2 s3 "A" 0 1 = kept s2; => [Keep(Conn(2), 3, b"A", Ms(0), 1, Some(2))]
entries dial c2 10.0.0.255 9000 s3; => [Dial(Conn(2), [10, 0, 0, 255], 9000, Some(3))]
entries dial t1 10.0.0.255 65535 failed; => [Dial(Job(1), [10, 0, 0, 255], 65535, None)]
entries log c2 "x"; => [Log(Conn(2), b"x", true)]
entries log t1 failed ""; => [Log(Job(1), b"", false)]
entries timer c2 5 = t1; => [Timer(Conn(2), Ms(5), Job(1))]
entries timer c2 5 = full; => [Timer(Conn(2), Ms(5), Full)]
entries timer c2 5 = exiting; => [Timer(Conn(2), Ms(5), Exiting)]"#;

/// Calls of a dictionary.
pub(super) const DICTIONARY: &str =
    r#"entries dict c2 d get "k" = none; => Conn(2) b"d" Get(b"k") Nothing
entries dict c2 d get "k" = found "v" 0; => Conn(2) b"d" Get(b"k") Found(Text(b"v"), 0)
entries dict c2 d get "k" = found false 4294967295; => Conn(2) b"d" Get(b"k") Found(Truth(false), 4294967295)
entries dict c2 d set "k" "v" 1000 0 = done; => Conn(2) b"d" Store { how: Set, key: b"k", value: Text(b"v"), ttl: 1000, flags: 0 } Done(false)
entries dict c2 d add "k" -5 0 7 = exists; => Conn(2) b"d" Store { how: Add, key: b"k", value: Number(-5), ttl: 0, flags: 7 } Exists
entries dict c2 d replace "k" true 0 0 = missing; => Conn(2) b"d" Store { how: Replace, key: b"k", value: Truth(true), ttl: 0, flags: 0 } Missing
entries dict c2 d delete "k" = done forcible; => Conn(2) b"d" Delete(b"k") Done(true)
entries dict c2 d incr "k" 1 0 0 = number 1; => Conn(2) b"d" Incr { key: b"k", by: 1, init: Some(0), ttl: 0 } Number(1, false)
entries dict c2 d incr "k" -3 -4 60 = number -7 forcible; => Conn(2) b"d" Incr { key: b"k", by: -3, init: Some(-4), ttl: 60 } Number(-7, true)
entries dict c2 d incr "k" -3 none = range; => Conn(2) b"d" Incr { key: b"k", by: -3, init: None, ttl: 0 } OutOfRange
entries dict c2 d incr "k" 1 none = not a number; => Conn(2) b"d" Incr { key: b"k", by: 1, init: None, ttl: 0 } NotNumber
entries dict c2 d flush_all = done; => Conn(2) b"d" FlushAll Done(false)
entries dict c2 d flush_all = no memory; => Conn(2) b"d" FlushAll NoMemory(false)
entries dict c2 d flush_all = no memory forcible; => Conn(2) b"d" FlushAll NoMemory(true)
entries dict c2 d flush_expired 0 = count 2; => Conn(2) b"d" FlushExpired(0) Count(2)
entries dict c2 d get_keys 1024 = keys "a" "b c"; => Conn(2) b"d" Keys(1024) Names(ByteLists { items: [b"a", b"b c"] })"#;

/// Lines of a schedule.
pub(super) const LINES: &str = r#"lines arrive c1;stop; => [Given(Arrive(1)), Given(Stop)]
lines room c3 40;stop; => [Room(Conn(3), Some(40)), Given(Stop)]
lines room s4 all;stop; => [Room(Sock(4), None), Given(Stop)]
lines fail next;stop; => [FailNext, Given(Stop)]
lines fail dial;stop; => [FailDial, Given(Stop)]
lines fail log;stop; => [FailLog, Given(Stop)]
lines fail listen;stop; => [FailListen, Given(Stop)]
lines fail put s2;stop; => [FailPut(Sock(2)), Given(Stop)]
lines room c1 3;fail put c1;bytes c1 "G\r\n";stop; => [Room(Conn(1), Some(3)), FailPut(Conn(1)), Given(Bytes(Conn(1), b"G\r\n")), Given(Stop)]"#;
