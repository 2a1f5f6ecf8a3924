//! The blocks of Lua that a site runs.

ghost use Rattle.std.specs.Prelude.{◌≡◌, ◌++◌, IfOk, OnOk};
ghost use Rattle.site_load.specs.Handlers as spec;

use conf::{Block, Conf, LocationConf};
use std::alloc::{AllocError, Global};

/// Adds the numbers of the content handlers of these locations.
fn push_contents(contents: &mut Vec<u32>, locations: &[LocationConf]) -> Result<(), AllocError>
    ensures { OnOk result (contents.new.items ≡ contents.old.items ++ spec.contents_in locations.now) }
{
    for location in locations {
        if let Some(number) = location.settings.content {
            contents.push(number)?;
        }
    }
    Ok(())
}

/// The numbers of the content handlers of all locations, in the order of the text.
fn contents_of(alloc: Global, conf: &Conf) -> Result<Vec<u32>, AllocError>
    ensures { IfOk result (λ contents. contents.items ≡ spec.contents_of conf.now) }
{
    let mut contents = Vec::new(alloc);
    for server in conf.servers.as_slice() {
        push_contents(&mut contents, server.locations.as_slice())?;
    }
    Ok(contents)
}

/// Whether the block of this number is one of these content handlers.
fn is_content(contents: &[u32], number: usize) -> bool
    ensures { result ≡ spec.is_content contents.now number }
{
    contents.iter().any(|content| *content as usize == number)
}

/// Whether the block of this number is run, where these are the content handlers.
fn is_run(init: Option<u32>, contents: &[u32], number: usize) -> bool
    ensures { result ≡ spec.is_run init contents.now number }
{
    is_init(init, number) || is_content(contents, number)
}

/// Whether the block of this number is the init block.
fn is_init(init: Option<u32>, number: usize) -> bool
    ensures { result ≡ spec.is_init init number }
{
    match init {
        Some(init) => init as usize == number,
        None => false,
    }
}

/// The line of the first of these blocks that isn't run, if there is one.
fn first_unbuilt(blocks: &[Block], init: Option<u32>, contents: &[u32]) -> Option<u32>
    ensures { result ≡ spec.first_unbuilt init contents.now 0 blocks.now }
{
    for (number, block) in blocks.iter().enumerate() {
        if !is_run(init, contents, number) {
            return Some(block.line);
        }
    }
    None
}

/// The line of the first block of a configuration that has a place in which no block is run yet, if there is one.
pub(crate) fn unbuilt_line(alloc: Global, conf: &Conf) -> Result<Option<u32>, AllocError>
    ensures { IfOk result (λ line. line ≡ spec.unbuilt_line conf.now) }
{
    let contents = contents_of(alloc, conf)?;
    Ok(first_unbuilt(conf.blocks.as_slice(), conf.init, contents.as_slice()))
}
