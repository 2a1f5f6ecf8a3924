//! The dictionaries of a configuration, found by their names.

ghost use Rattle.std.specs.Prelude.{◌≡◌, [], false, map, IfOk, OnOk};
ghost use Rattle.conf.specs.Entries.{zone_of};
ghost use Rattle.conf.specs.Zones as spec;

use crate::{Listing, ZoneConf};
use indexmap::IndexMap;
use resty_base::Bytes;
use std::alloc::{AllocError, Global};
use std::marker::Model;
use std::mem;

/// Dictionaries of different names in the order of the text, which contracts see as a list.
#[derive(Drop)]
pub(crate) struct Zones {
    sizes: IndexMap<Bytes, u64>,
}

impl Model for Zones {
    ghost use Rattle.std.specs.Prelude.{List, map};
    ghost use Rattle.conf.specs.Entries.{zone_of};
    ghost use Rattle.conf.specs.declared.sites.ZoneConf.{ZoneConf};

    ghost Value = { List ZoneConf };

    ghost view = { λ zones. map zone_of zones.sizes.entries };
}

impl Zones {
    /// No dictionaries; takes no memory.
    pub(crate) fn new(alloc: Global) -> Zones
        ensures { result ≡ [] }
    {
        Zones {
            sizes: IndexMap::new(alloc),
        }
    }

    /// Whether a dictionary of the name is there.
    pub(crate) fn has(&self, name: &Bytes) -> bool
        ensures { result ≡ spec.has_zone self.now name.now }
    {
        self.sizes.contains_key(name)
    }

    /// Adds a dictionary at the end whose name isn't there.
    pub(crate) fn push(&mut self, name: Bytes, size: u64) -> Result<(), AllocError>
        requires { spec.has_zone self.old name ≡ false }
        ensures { OnOk result (self.new ≡ spec.with_zone self.old name size) }
    {
        match self.sizes.insert(name, size) {
            Ok(_) => {}
            Err(_) => return Err(AllocError),
        }
        Ok(())
    }

    /// Takes the dictionaries out as a list.
    pub(crate) fn take_listing(&mut self, alloc: Global) -> Result<Listing<ZoneConf>, AllocError>
        ensures { IfOk result (λ zones. zones ≡ self.old) }
    {
        let sizes = mem::replace(&mut self.sizes, IndexMap::new(alloc));
        listing_of(alloc, sizes)
    }
}

/// The entries of a map as dictionaries.
fn listing_of(alloc: Global, sizes: IndexMap<Bytes, u64>) -> Result<Listing<ZoneConf>, AllocError>
    ensures { IfOk result (λ zones. zones ≡ map zone_of sizes.entries) }
{
    let mut zones = Listing::new(alloc);
    for (name, size) in sizes {
        zones.push(ZoneConf { name, size })?;
    }
    Ok(zones)
}
