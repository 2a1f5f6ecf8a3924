//! Names of connections, sockets and strands.
ghost use Rattle.std.specs.Prelude.{◌≡◌};
ghost use Rattle.schedule_text.specs.Found as found;

use crate::reading::numbers::numbered;
use crate::reading::splits::begins;
use resty_base::{Id, StrandId};

/// The connection or the socket.
pub fn id_in(text: &[u8]) -> Id
    ensures { result ≡ found.id_in text.now }
{
    if begins(text, b's') {
        Id::Sock(numbered(text))
    } else {
        Id::Conn(numbered(text))
    }
}

/// The strand.
pub fn strand_in(text: &[u8]) -> StrandId
    ensures { result ≡ found.strand_in text.now }
{
    if begins(text, b't') {
        StrandId::Job(numbered(text))
    } else {
        StrandId::Conn(numbered(text))
    }
}

/// The socket, where one is named.
pub fn socket_in(text: &[u8]) -> Option<u64>
    ensures { result ≡ found.socket_in text.now }
{
    if begins(text, b's') {
        Some(numbered(text))
    } else {
        None
    }
}
