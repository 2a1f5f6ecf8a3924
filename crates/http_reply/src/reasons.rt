//! The reasons of statuses (RFC 9110, 15; RFC 6585, 4 and 5).
ghost use Rattle.std.specs.Prelude.{◌≡◌};
ghost use Rattle.http_reply.specs.Reasons as reasons;

/// The reason of a status, empty where it has none of its own.
pub fn reason(code: u16) -> &'static str
    ensures { result.now ≡ reasons.reason code }
{
    match code / 100 {
        2 => success(code),
        3 => redirection(code),
        4 => client_error(code),
        5 => server_error(code),
        _ => "",
    }
}

fn success(code: u16) -> &'static str
    ensures { result.now ≡ reasons.success code }
{
    match code {
        200 => "OK",
        201 => "Created",
        202 => "Accepted",
        204 => "No Content",
        206 => "Partial Content",
        _ => "",
    }
}

fn redirection(code: u16) -> &'static str
    ensures { result.now ≡ reasons.redirection code }
{
    match code {
        301 => "Moved Permanently",
        302 => "Found",
        303 => "See Other",
        304 => "Not Modified",
        307 => "Temporary Redirect",
        308 => "Permanent Redirect",
        _ => "",
    }
}

fn client_error(code: u16) -> &'static str
    ensures { result.now ≡ reasons.client_error code }
{
    match code {
        400 => "Bad Request",
        401 => "Unauthorized",
        403 => "Forbidden",
        404 => "Not Found",
        405 => "Method Not Allowed",
        408 => "Request Timeout",
        409 => "Conflict",
        413 => "Content Too Large",
        429 => "Too Many Requests",
        431 => "Request Header Fields Too Large",
        _ => "",
    }
}

fn server_error(code: u16) -> &'static str
    ensures { result.now ≡ reasons.server_error code }
{
    match code {
        500 => "Internal Server Error",
        501 => "Not Implemented",
        502 => "Bad Gateway",
        503 => "Service Unavailable",
        504 => "Gateway Timeout",
        505 => "HTTP Version Not Supported",
        _ => "",
    }
}
