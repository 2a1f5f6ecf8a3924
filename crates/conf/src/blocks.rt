//! The blocks of a configuration as they are read: what their directives said so far.

ghost use Rattle.std.specs.Prelude.{◌≡◌, OnOk, option_copied};
ghost use Rattle.conf.specs.Blocks as spec;

use crate::zones::Zones;
use crate::{Block, Listing};
use conf_rules::{Directive, Effect, LocationKind, Place, same};
use resty_base::Bytes;
use std::alloc::{AllocError, Global};

/// The port of a server without `listen`.
pub(crate) const DEFAULT_PORT: u16 = 8080;

/// A directive with what it says.
#[derive(Drop)]
pub(crate) struct Said {
    pub(crate) directive: Directive,
    pub(crate) effect: Effect,
}

/// A block `location`.
#[derive(Drop)]
pub(crate) struct LocationBlock {
    pub(crate) kind: LocationKind,
    pub(crate) said: Listing<Said>,
}

/// A block `server`, with the line of its name.
#[derive(Drop)]
pub(crate) struct ServerBlock {
    pub(crate) line: usize,
    pub(crate) names: Listing<Bytes>,
    /// A `listen` stands there.
    pub(crate) listens: bool,
    /// One with `default_server` does.
    pub(crate) is_default: bool,
    pub(crate) said: Listing<Said>,
    pub(crate) locations: Listing<LocationBlock>,
}

/// The blocks that stand so far. `server` and `location` are those that are open; where none is, they are empty.
#[derive(Drop)]
pub(crate) struct Nest {
    /// The innermost open block.
    pub(crate) place: Place,
    pub(crate) main: Listing<Said>,
    pub(crate) events: Listing<Said>,
    pub(crate) http: Listing<Said>,
    pub(crate) zones: Zones,
    pub(crate) blocks: Listing<Block>,
    /// The port of the first server, once it is known.
    pub(crate) port: Option<u16>,
    pub(crate) servers: Listing<ServerBlock>,
    pub(crate) server: ServerBlock,
    pub(crate) location: LocationBlock,
}

impl LocationBlock {
    /// A location of which nothing is said.
    pub(crate) fn new(alloc: Global, kind: LocationKind) -> LocationBlock
        ensures { result ≡ spec.location_of kind }
    {
        LocationBlock {
            kind,
            said: Listing::new(alloc),
        }
    }

    /// No location.
    pub(crate) fn none(alloc: Global) -> LocationBlock
        ensures { result ≡ spec.no_location }
    {
        LocationBlock::new(alloc, LocationKind::Prefix(Bytes::new()))
    }
}

impl ServerBlock {
    /// A server whose name stands on a line, and of which nothing is said.
    pub(crate) fn new(alloc: Global, line: usize) -> ServerBlock
        ensures { result ≡ spec.server_at line }
    {
        ServerBlock {
            line,
            names: Listing::new(alloc),
            listens: false,
            is_default: false,
            said: Listing::new(alloc),
            locations: Listing::new(alloc),
        }
    }
}

/// What is said of a directive, None where nothing is.
pub(crate) fn effect_in(said: &[Said], directive: Directive) -> Option<&Effect>
    ensures { option_copied result ≡ spec.effect_in directive said.now }
{
    match said.iter().find(|said| same(said.directive, directive)) {
        Some(said) => Some(&said.effect),
        None => None,
    }
}

/// Whether something is said of a directive.
pub(crate) fn is_said(said: &[Said], directive: Directive) -> bool
    ensures { result ≡ spec.is_said directive said.now }
{
    said.iter().any(|said| same(said.directive, directive))
}

impl Nest {
    /// No blocks: the main part is open, and nothing is said there.
    pub(crate) fn new(alloc: Global) -> Nest
        ensures { result ≡ spec.start }
    {
        Nest {
            place: Place::Main,
            main: Listing::new(alloc),
            events: Listing::new(alloc),
            http: Listing::new(alloc),
            zones: Zones::new(alloc),
            blocks: Listing::new(alloc),
            port: None,
            servers: Listing::new(alloc),
            server: ServerBlock::new(alloc, 0),
            location: LocationBlock::none(alloc),
        }
    }

    /// What is said in the innermost open block.
    pub(crate) fn said_here(&self) -> &[Said]
        ensures { result.now ≡ spec.said_here self.now }
    {
        match self.place {
            Place::Main => self.main.as_slice(),
            Place::Events => self.events.as_slice(),
            Place::Http => self.http.as_slice(),
            Place::Server => self.server.said.as_slice(),
            Place::Location => self.location.said.as_slice(),
        }
    }

    /// Says it in the innermost open block.
    pub(crate) fn say(&mut self, directive: Directive, effect: Effect) -> Result<(), AllocError>
        ensures { OnOk result (self.new ≡ spec.with_said self.old directive effect) }
    {
        let said = Said { directive, effect };
        match self.place {
            Place::Main => self.main.push(said),
            Place::Events => self.events.push(said),
            Place::Http => self.http.push(said),
            Place::Server => self.server.said.push(said),
            Place::Location => self.location.said.push(said),
        }
    }
}
