//! What an item does to the nest of blocks.

ghost use Rattle.std.specs.Prelude.{◌≡◌, Ok, OnOk, IfOk, IfErr};
ghost use Rattle.conf.specs.Outcomes.{Refuses};
ghost use Rattle.conf.specs.Steps as spec;

use crate::blocks::{DEFAULT_PORT, LocationBlock, Nest, Said, ServerBlock, is_said};
use crate::{Block, ConfFault};
use conf_rules::{
    Directive, Effect, Form, LocationKind, Place, directive_of, effect_of, form_of, may_repeat,
    may_stand,
};
use conf_text::{Ending, Item};
use resty_base::{ByteLists, Bytes};
use std::alloc::{AllocError, Global};
use std::mem;

/// Whether the port is this one, or not known yet.
fn agrees(port: u16, known: Option<u16>) -> bool
    ensures { result ≡ spec.agrees port known }
{
    match known {
        Some(known) => known == port,
        None => true,
    }
}

/// Whether the ending is that of a directive of a form, be its block of Lua closed or not.
fn ends(form: Form, ending: &Ending) -> bool
    ensures { result ≡ spec.ends form ending.now }
{
    match form {
        Form::Simple => matches!(ending, Ending::Semicolon),
        Form::Block => matches!(ending, Ending::Open),
        Form::Lua => matches!(ending, Ending::Lua(_) | Ending::Unclosed),
    }
}

/// The line as a number of 32 bits; a greater one is refused as if memory ran out.
fn line_number(line: usize) -> Result<u32, AllocError>
    ensures { IfOk result (λ number. number ≡ line) }
{
    match u32::try_from(line) {
        Ok(number) => Ok(number),
        Err(_) => Err(AllocError),
    }
}

impl Nest {
    /// Whether another server is the default one.
    fn has_default(&self) -> bool
        ensures { result ≡ spec.has_default self.now }
    {
        self.servers
            .as_slice()
            .iter()
            .any(|server| server.is_default)
    }

    /// The directive where it may stand here, and where it stands once in a block, isn't there yet.
    fn standing(&self, line: usize, directive: Directive) -> Result<Directive, ConfFault>
        ensures { result ≡ spec.standing self.now line directive }
    {
        if !may_stand(directive, self.place) {
            Err(ConfFault::Place(line))
        } else if !may_repeat(directive) && is_said(self.said_here(), directive) {
            Err(ConfFault::Twice(line))
        } else {
            Ok(directive)
        }
    }

    /// The directive of a name on a line.
    fn directive_at(&self, name: &[u8], line: usize) -> Result<Directive, ConfFault>
        ensures { result ≡ spec.directive_at self.now name.now line }
    {
        match directive_of(name) {
            Some(directive) => self.standing(line, directive),
            None => Err(ConfFault::Unknown(line)),
        }
    }

    /// Opens a block.
    fn open(
        &mut self,
        alloc: Global,
        directive: Directive,
        place: Place,
        line: usize,
    ) -> Result<(), AllocError>
        ensures { OnOk result (self.new ≡ spec.opened self.old directive place line) }
    {
        match place {
            Place::Server => self.server = ServerBlock::new(alloc, line),
            _ => self.say(directive, Effect::Nothing)?,
        }
        self.place = place;
        Ok(())
    }

    /// Opens a location.
    fn locate(&mut self, alloc: Global, kind: LocationKind)
        ensures { self.new ≡ spec.located self.old kind }
    {
        self.location = LocationBlock::new(alloc, kind);
        self.place = Place::Location;
    }

    /// Whether the open server can't be the default one, as another is.
    fn is_second_default(&self, is_default: bool) -> bool
        ensures { result ≡ spec.is_second_default self.now is_default }
    {
        is_default && !self.server.is_default && self.has_default()
    }

    /// The open server listens at a port.
    fn listen(&mut self, port: u16, is_default: bool, line: usize) -> Result<(), ConfFault>
        ensures ok { OnOk result (spec.listening self.old port is_default line ≡ Ok self.new) }
        ensures err { IfErr result (Refuses (spec.listening self.old port is_default line)) }
    {
        if !agrees(port, self.port) || self.is_second_default(is_default) {
            return Err(ConfFault::Value(line));
        }
        self.port = Some(port);
        self.server.listens = true;
        self.server.is_default = self.server.is_default || is_default;
        Ok(())
    }

    /// The open server has more names.
    fn name(&mut self, names: ByteLists) -> Result<(), AllocError>
        ensures { OnOk result (self.new ≡ spec.named self.old names) }
    {
        self.server.names.append(names.into_vec())
    }

    /// Adds a dictionary.
    fn add_zone(&mut self, name: Bytes, size: u64, line: usize) -> Result<(), ConfFault>
        ensures ok { OnOk result (spec.zoned self.old name size line ≡ Ok self.new) }
        ensures err { IfErr result (Refuses (spec.zoned self.old name size line)) }
    {
        if self.zones.has(&name) {
            return Err(ConfFault::Twice(line));
        }
        self.zones.push(name, size)?;
        Ok(())
    }

    /// A directive on a line says this.
    fn take_effect(
        &mut self,
        alloc: Global,
        directive: Directive,
        effect: Effect,
        line: usize,
    ) -> Result<(), ConfFault>
        ensures ok { OnOk result (spec.saying self.old directive effect line ≡ Ok self.new) }
        ensures err { IfErr result (Refuses (spec.saying self.old directive effect line)) }
    {
        let taken = match effect {
            Effect::Listen(port, is_default) => return self.listen(port, is_default, line),
            Effect::Dictionary(name, size) => return self.add_zone(name, size, line),
            Effect::Location(kind) => {
                self.locate(alloc, kind);
                Ok(())
            }
            Effect::Opens(place) => self.open(alloc, directive, place, line),
            Effect::Names(names) => self.name(names),
            other => self.say(directive, other),
        };
        Ok(taken?)
    }

    /// A directive has a block of Lua, whose first brace stands on a line.
    fn take_block(
        &mut self,
        directive: Directive,
        text: Bytes,
        line: usize,
    ) -> Result<(), AllocError>
        ensures { OnOk result (self.new ≡ spec.handled self.old directive text line) }
    {
        let number = self.blocks.len();
        let line = line_number(line)?;
        self.say(directive, Effect::Block(number))?;
        self.blocks.push(Block { text, line })
    }

    /// Closes the open server; one that doesn't listen has the default port.
    fn close_server(&mut self, alloc: Global) -> Result<(), ConfFault>
        ensures ok { OnOk result (spec.served self.old ≡ Ok self.new) }
        ensures err { IfErr result (Refuses (spec.served self.old)) }
    {
        if !self.server.listens {
            if !agrees(DEFAULT_PORT, self.port) {
                return Err(ConfFault::Value(self.server.line));
            }
            self.port = Some(DEFAULT_PORT);
        }
        let server = mem::replace(&mut self.server, ServerBlock::new(alloc, 0));
        self.servers.push(server)?;
        self.place = Place::Http;
        Ok(())
    }

    /// Closes the open location.
    fn close_location(&mut self, alloc: Global) -> Result<(), AllocError>
        ensures { OnOk result (self.new ≡ spec.left self.old) }
    {
        let location = mem::replace(&mut self.location, LocationBlock::none(alloc));
        self.server.locations.push(location)?;
        self.place = Place::Server;
        Ok(())
    }

    /// Closes the innermost open block by a `}` on a line.
    fn close(&mut self, alloc: Global, line: usize) -> Result<(), ConfFault>
        ensures ok { OnOk result (spec.closed self.old self.old.place line ≡ Ok self.new) }
        ensures err { IfErr result (Refuses (spec.closed self.old self.old.place line)) }
    {
        match self.place {
            Place::Main => return Err(ConfFault::At(line)),
            Place::Server => self.close_server(alloc)?,
            Place::Location => self.close_location(alloc)?,
            Place::Events | Place::Http => self.place = Place::Main,
        }
        Ok(())
    }

    /// The text may end where all blocks are closed and a server is there.
    fn finish(&self, line: usize) -> Result<(), ConfFault>
        ensures ok { OnOk result (spec.finished self.now line ≡ Ok self.now) }
        ensures err { IfErr result (Refuses (spec.finished self.now line)) }
    {
        if matches!(self.place, Place::Main) && self.servers.len() != 0 {
            Ok(())
        } else {
            Err(ConfFault::At(line))
        }
    }

    /// Takes what stands on a line without words before it.
    fn take_bare(&mut self, alloc: Global, ending: &Ending, line: usize) -> Result<(), ConfFault>
        ensures ok { OnOk result (spec.bare self.old ending.now line ≡ Ok self.new) }
        ensures err { IfErr result (Refuses (spec.bare self.old ending.now line)) }
    {
        match ending {
            Ending::Close => self.close(alloc, line),
            Ending::End => self.finish(line),
            _ => Err(ConfFault::At(line)),
        }
    }

    /// Takes what an item says, with the item's ending, of which a block of Lua is taken out.
    fn take_said(&mut self, alloc: Global, said: Said, item: &mut Item) -> Result<(), ConfFault>
        ensures ok { OnOk result (spec.ended self.old said.directive said.effect item.old item.old.ending ≡ Ok self.new) }
        ensures err { IfErr result (Refuses (spec.ended self.old said.directive said.effect item.old item.old.ending)) }
    {
        let Said { directive, effect } = said;
        match &mut item.ending {
            Ending::Lua(text) => {
                drop(effect);
                let text = mem::replace(text, Bytes::new());
                Ok(self.take_block(directive, text, item.ending_line)?)
            }
            Ending::Unclosed => {
                drop(effect);
                Err(ConfFault::Block(item.line))
            }
            _ => self.take_effect(alloc, directive, effect, item.line),
        }
    }

    /// What an item says by its words, where its name is that of a directive that may stand here and ends so.
    fn said_by(
        &self,
        alloc: Global,
        name: &[u8],
        words: &[Bytes],
        item: &Item,
    ) -> Result<Said, ConfFault>
        ensures ok { IfOk result (λ said. spec.said_by self.now name.now words.now item.now ≡ Ok said) }
        ensures err { IfErr result (Refuses (spec.said_by self.now name.now words.now item.now)) }
    {
        let directive = self.directive_at(name, item.line)?;
        if !ends(form_of(directive), &item.ending) {
            return Err(ConfFault::At(item.ending_line));
        }
        match effect_of(alloc, directive, words)? {
            Some(effect) => Ok(Said { directive, effect }),
            None => Err(ConfFault::Value(item.line)),
        }
    }

    /// Takes an item.
    pub(crate) fn take(&mut self, alloc: Global, mut item: Item) -> Result<(), ConfFault>
        ensures ok { OnOk result (spec.step self.old item ≡ Ok self.new) }
        ensures err { IfErr result (Refuses (spec.step self.old item)) }
    {
        let taken = match item.words.as_slice().split_first() {
            Some((name, words)) => match self.said_by(alloc, name, words, &item) {
                Ok(said) => self.take_said(alloc, said, &mut item),
                Err(fault) => Err(fault),
            },
            None => self.take_bare(alloc, &item.ending, item.ending_line),
        };
        drop(item);
        taken
    }
}
