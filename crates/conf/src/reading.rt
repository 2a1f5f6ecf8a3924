//! Reading a configuration item by item.

ghost use Rattle.std.specs.Prelude.{◌≡◌, IfOk, IfErr, OnOk};
ghost use Rattle.conf.specs.Blocks.{start};
ghost use Rattle.conf.specs.Reading.{Fit, IsConf, IsFault, IsFaultIn, IsWhole};

use crate::blocks::Nest;
use crate::meaning::conf_of;
use crate::{Conf, ConfFault};
use conf_text::{Item, items_of};
use std::alloc::Global;

/// Takes items one after another, where none was taken.
fn take_items(alloc: Global, nest: &mut Nest, items: Vec<Item>) -> Result<(), ConfFault>
    requires { nest.old ≡ start }
    ensures ok { OnOk result (Fit start items.items nest.new) }
    ensures err { IfErr result (IsFaultIn items.items) }
{
    for item in items {
        if let Err(fault) = nest.take(alloc, item) {
            return Err(fault);
        }
    }
    Ok(())
}

/// Reads the text of a site.
pub fn site_text_of(alloc: Global, text: &[u8]) -> Result<Conf, ConfFault>
    ensures read { IfOk result (IsConf text.now) }
    ensures whole { IfOk result IsWhole }
    ensures refused { IfErr result (IsFault text.now) }
{
    let items = items_of(alloc, text)?;
    let mut nest = Nest::new(alloc);
    match take_items(alloc, &mut nest, items) {
        Ok(()) => {
            let conf = conf_of(alloc, &mut nest);
            drop(nest);
            Ok(conf?)
        }
        Err(fault) => {
            drop(nest);
            Err(fault)
        }
    }
}
