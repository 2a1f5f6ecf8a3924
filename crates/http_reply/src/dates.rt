//! The dates of replies (RFC 9110, 5.6.7 and 6.6.1).
ghost use Rattle.std.specs.Prelude.{◌≡◌};
ghost use Rattle.http_reply.specs.Dates as dates;

use httpdate::HttpDate;
use resty_base::Ms;

/// The last second of the year 9999: after it the date stands still.
const LAST_SECOND: u64 = 253_402_300_799;

/// The date of a moment, as `Sun, 06 Nov 1994 08:49:37 GMT`.
pub fn date_text(now: Ms) -> [u8; 29]
    ensures { result ≡ dates.date_text now.0 }
{
    match HttpDate::from_unix_secs((now.0 / 1_000).min(LAST_SECOND)) {
        Ok(date) => date.to_bytes(),
        Err(_) => unreachable!(),
    }
}
