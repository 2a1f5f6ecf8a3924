//! A text, checked: its configuration, and then its blocks of Lua in their order.

ghost use Rattle.std.specs.Prelude.{IfErr, IfOk, OnOk};
ghost use Rattle.site_check.specs.Sites.{HasProgram, HavePrograms, IsBlockFault, IsFirstFault, IsRead, IsSiteFault};

use crate::CheckFault;
use conf::{Block, Conf, site_text_of};
use lua_ast::Program;
use lua_lexer::lex;
use lua_parser::parse;
use std::alloc::Global;

/// The last line on which a block of Lua is read.
const LAST_LINE: u32 = 4_293_918_719;

/// What the text of a site says: its configuration, and the program of each of its blocks in their order.
#[derive(Drop)]
pub struct SiteRead {
    pub conf: Conf,
    pub programs: Vec<Program>,
}

/// The program of a block of Lua: its tokens are read, and then their grammar.
fn block_program(alloc: Global, block: &Block) -> Result<Program, CheckFault>
    ensures ok { IfOk result (HasProgram block.now) }
    ensures err { IfErr result (IsBlockFault block.now) }
{
    if block.line > LAST_LINE {
        return Err(CheckFault::Memory);
    }
    let tokens = lex(alloc, block.text.as_slice(), block.line)?;
    Ok(parse(alloc, tokens.as_slice())?)
}

/// The programs of blocks of Lua, one after another.
fn block_programs(alloc: Global, blocks: &[Block]) -> Result<Vec<Program>, CheckFault>
    ensures ok { IfOk result (λ programs. HavePrograms blocks.now programs.items) }
    ensures err { IfErr result (IsFirstFault blocks.now) }
{
    let mut programs = Vec::new(alloc);
    for block in blocks {
        match block_program(alloc, block) {
            Ok(program) => programs.push(program)?,
            Err(fault) => return Err(fault),
        }
    }
    Ok(programs)
}

/// Reads the text of a site: its configuration, and then its blocks of Lua in their order.
pub fn read_site(alloc: Global, text: &[u8]) -> Result<SiteRead, CheckFault>
    ensures ok { IfOk result (λ site. IsRead text.now site.conf site.programs.items) }
    ensures err { IfErr result (IsSiteFault text.now) }
{
    let conf = site_text_of(alloc, text)?;
    let programs = block_programs(alloc, conf.blocks.as_slice())?;
    Ok(SiteRead { conf, programs })
}
