//! What a Host field may say (RFC 9112, 3.2): a name or an address in brackets, and a port.

ghost use Rattle.std.specs.Prelude.{◌≡◌, option_copied};
ghost use Rattle.std.specs.List.{list_all};
ghost use Rattle.http_in.specs.Hosts as hosts;

use crate::framing::are_digits;
use http_base::split_once;

/// Whether this is a host, with or without a port.
pub(crate) fn is_host(text: &[u8]) -> bool
    ensures { result ≡ hosts.is_host text.now }
{
    match text {
        [b'[', rest @ ..] => {
            let (address, port) = split_once(rest, b']');
            is_bracketed(address, port)
        }
        _ => {
            let (name, port) = split_once(text, b':');
            is_named(name, port)
        }
    }
}

/// Whether this is a name, which may be empty, and its port.
fn is_named(name: &[u8], port: Option<&[u8]>) -> bool
    ensures { result ≡ hosts.is_named name.now (option_copied port.entry) }
{
    match port {
        Some(port) => is_name(name) && are_digits(port),
        None => is_name(name),
    }
}

/// Whether this is an address that a bracket ended, and its port.
fn is_bracketed(address: &[u8], port: Option<&[u8]>) -> bool
    ensures { result ≡ hosts.is_bracketed address.now (option_copied port.entry) }
{
    match port {
        Some([b':', digits @ ..]) => is_address(address) && are_digits(digits),
        Some([]) => is_address(address),
        _ => false,
    }
}

/// Whether these are bytes of a name.
fn is_name(text: &[u8]) -> bool
    ensures { result ≡ list_all hosts.is_name_byte text.now }
{
    for byte in text {
        if !is_name_byte(*byte) {
            return false;
        }
    }
    true
}

/// Whether these are bytes of an address.
fn is_address(text: &[u8]) -> bool
    ensures { result ≡ list_all hosts.is_address_byte text.now }
{
    for byte in text {
        if *byte != b':' && !is_name_byte(*byte) {
            return false;
        }
    }
    true
}

/// Whether this is a byte of a name.
fn is_name_byte(byte: u8) -> bool
    ensures { result ≡ hosts.is_name_byte byte }
{
    byte.is_ascii_alphanumeric() || b"-._~%!$&'()*+;=".contains(&byte)
}
