//! The variables of a request, by name.
ghost use Rattle.std.specs.Prelude.{◌≡◌, IfOk, decimal};
ghost use Rattle.request_api.specs.Variables as spec;

use crate::Req;
use crate::arguments::argument;
use crate::names::dashed;
use crate::values::{first_value, unless_empty};
use itoa::Buffer;
use resty_base::Bytes;
use std::alloc::{AllocError, Global};

/// A variable that has one name.
#[derive(Clone, Copy, Debug, PartialEq, Eq)]
pub(crate) enum Variable {
    Uri,
    RequestUri,
    Args,
    QueryString,
    IsArgs,
    RequestMethod,
    Host,
    Scheme,
    ServerPort,
    ServerProtocol,
    RemoteAddr,
    ContentType,
    ContentLength,
    Status,
}

/// These variables.
const VARIABLES: [Variable; 14] = [
    Variable::Uri,
    Variable::RequestUri,
    Variable::Args,
    Variable::QueryString,
    Variable::IsArgs,
    Variable::RequestMethod,
    Variable::Host,
    Variable::Scheme,
    Variable::ServerPort,
    Variable::ServerProtocol,
    Variable::RemoteAddr,
    Variable::ContentType,
    Variable::ContentLength,
    Variable::Status,
];

impl Req {
    /// The variable of this name, None where it has no value or there is no such variable. `port` is the server's.
    pub fn variable(
        &self,
        alloc: Global,
        name: &Bytes,
        port: u16,
    ) -> Result<Option<Bytes>, AllocError>
        ensures { IfOk result (λ value. value ≡ spec.variable self.now name.now port) }
    {
        if let Some(variable) = variable_of(name) {
            value_of(self, alloc, variable, port)
        } else if name.starts_with(b"arg_") && name.len() > 4 {
            argument(&self.target.args, &name[4..])
        } else if name.starts_with(b"http_") {
            header(self, alloc, &name.slice(5..)?)
        } else {
            Ok(None)
        }
    }
}

/// The name of a variable.
#[tactic(auto, unfolding(crate::specs::Variables::spelling))]
fn spelling(variable: Variable) -> &'static [u8]
    ensures { result.now ≡ spec.spelling variable }
{
    match variable {
        Variable::Uri => b"uri",
        Variable::RequestUri => b"request_uri",
        Variable::Args => b"args",
        Variable::QueryString => b"query_string",
        Variable::IsArgs => b"is_args",
        Variable::RequestMethod => b"request_method",
        Variable::Host => b"host",
        Variable::Scheme => b"scheme",
        Variable::ServerPort => b"server_port",
        Variable::ServerProtocol => b"server_protocol",
        Variable::RemoteAddr => b"remote_addr",
        Variable::ContentType => b"content_type",
        Variable::ContentLength => b"content_length",
        Variable::Status => b"status",
    }
}

/// The variable of this name.
#[tactic(auto, unfolding(crate::specs::Variables::variable_of, crate::specs::Variables::variables))]
fn variable_of(name: &[u8]) -> Option<Variable>
    ensures { result ≡ spec.variable_of name.now }
{
    VARIABLES
        .iter()
        .copied()
        .find(|variable| spelling(*variable) == name)
}

/// The value of a variable.
fn value_of(
    req: &Req,
    alloc: Global,
    variable: Variable,
    port: u16,
) -> Result<Option<Bytes>, AllocError>
    ensures { IfOk result (λ value. value ≡ spec.value_of req.now port variable) }
{
    match variable {
        Variable::Uri => Ok(Some(req.target.path.clone()?)),
        Variable::RequestUri => Ok(Some(req.head.target.clone()?)),
        Variable::Args | Variable::QueryString => Ok(unless_empty(req.target.args.clone()?)),
        Variable::IsArgs => Ok(Some(Bytes::from_static(is_args(&req.target.args)))),
        Variable::RequestMethod => Ok(Some(req.head.method.clone()?)),
        Variable::Host => Ok(Some(host(req)?)),
        Variable::Scheme => Ok(Some(Bytes::from_static(b"http"))),
        Variable::ServerPort => Ok(Some(decimal(alloc, port)?)),
        Variable::ServerProtocol => Ok(Some(Bytes::from_static(protocol(req.head.minor)))),
        Variable::RemoteAddr => Ok(Some(Bytes::from_static(b"127.0.0.1"))),
        Variable::ContentType => first_value(alloc, &req.head.headers, b"content-type"),
        Variable::ContentLength => first_value(alloc, &req.head.headers, b"content-length"),
        Variable::Status => Ok(Some(decimal(alloc, req.reply.status)?)),
    }
}

/// A `?` where there are arguments.
fn is_args(args: &[u8]) -> &'static [u8]
    ensures { result.now ≡ spec.is_args args.now }
{
    if args.is_empty() { b"" } else { b"?" }
}

/// The host, empty where there is none.
fn host(req: &Req) -> Result<Bytes, AllocError>
    ensures { IfOk result (λ host. host ≡ spec.host req.now) }
{
    match &req.target.host {
        Some(host) => host.clone(),
        None => Ok(Bytes::new()),
    }
}

/// The protocol of this minor version.
fn protocol(minor: u8) -> &'static [u8]
    ensures { result.now ≡ spec.protocol minor }
{
    if minor == 0 { b"HTTP/1.0" } else { b"HTTP/1.1" }
}

/// The number in decimal digits.
fn decimal(alloc: Global, number: u16) -> Result<Bytes, AllocError>
    ensures { IfOk result (λ text. text ≡ decimal number) }
{
    let mut buffer = Buffer::new();
    Bytes::copy_from_slice(alloc, buffer.format(number).as_bytes())
}

/// The value of the first header field of this name, with `-` for each `_`.
fn header(req: &Req, alloc: Global, name: &Bytes) -> Result<Option<Bytes>, AllocError>
    ensures { IfOk result (λ value. value ≡ spec.header req.now name.now) }
{
    let name = dashed(alloc, name)?;
    first_value(alloc, &req.head.headers, &name)
}
