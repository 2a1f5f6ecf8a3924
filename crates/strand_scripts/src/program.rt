//! What scripted strands go by: operations, programs, and the site that has them.

use resty_base::{Bytes, Ms};
use std::alloc::AllocError;
use std::marker::Model;
use std::rc::Rc;

/// One operation of a program.
#[derive(Debug, Drop)]
pub enum Op {
    /// Waits so long; a sleep of 0 ends at the next moment.
    Sleep(Ms),
    /// Waits for the thread's next run.
    Yield,
    /// Writes a log line.
    Log(Bytes),
    /// Sends a text to the client.
    Say(Bytes),
    /// Puts a second thread into the run queue, and takes it out again.
    Recall,
    /// There is no memory for it, nor for waking a sleeper before it: the strand is given up.
    Fail,
}

/// A program; a client asks for it by the first byte that it sends.
#[derive(Debug, Drop)]
pub struct Program {
    pub name: u8,
    pub ops: Rc<Vec<Op>>,
}

/// What all scripted strands of one server share.
#[derive(Debug, Drop)]
pub struct Site {
    pub programs: Vec<Program>,
    /// How many connections may be open at a time.
    pub connections: u32,
}

/// The rest of a program.
#[derive(Debug, Drop)]
pub(crate) struct Rest {
    ops: Option<Rc<Vec<Op>>>,
    next: usize,
}

impl Model for Rest {
    ghost use Rattle.std.specs.Prelude.{List, drop};
    ghost use Rattle.strand_scripts.specs.declared.program.Op.{Op};
    ghost use Rattle.strand_scripts.specs.Programs.{ops_in};

    ghost Value = { List Op };

    ghost view = { λ rest. drop rest.next (ops_in rest.ops) };
}

impl Rest {
    ghost use Rattle.std.specs.Prelude.{◌≡◌, ◌∷◌, [], List, IfOk, MatchOption, drop};
    ghost use Rattle.strand_scripts.specs.declared.program.Op.{Op};
    ghost use Rattle.strand_scripts.specs.Programs.{ops_of};

    /// Nothing is left; takes no memory.
    pub(crate) fn nothing() -> Rest
        ensures { result ≡ [] }
    {
        Rest { ops: None, next: 0 }
    }

    /// The first program of that name, whole; nothing where there is none.
    pub(crate) fn of(site: &Site, name: u8) -> Result<Rest, AllocError>
        ensures { IfOk result (λ rest. rest ≡ ops_of name site.now.programs.items) }
    {
        for program in site.programs.iter() {
            if program.name == name {
                let ops = program.ops.clone()?;
                return Ok(Rest {
                    ops: Some(ops),
                    next: 0,
                });
            }
        }
        Ok(Rest::nothing())
    }

    /// The next operation.
    pub(crate) fn first(&self) -> Option<&Op>
        ensures { MatchOption result (self.now ≡ []) (λ op. (rest : List Op) × (self.now ≡ op.now ∷ rest)) }
    {
        match &self.ops {
            Some(ops) => ops.get(self.next),
            None => None,
        }
    }

    /// The next operation is done.
    pub(crate) fn skip(&mut self)
        ensures { self.new ≡ drop 1 self.old }
    {
        if self.first().is_some() {
            self.next += 1;
        }
    }
}
