//! The contract of a run, met.

ghost use Rattle.std.specs.Prelude.{◌≡◌, Ok, IfOk};

use crate::answers::has_handler;
use crate::run::{Work, queueing, silent, working};
use crate::{LuaRun, Site};
use http_in::Head;
use lua_machine::Machine;
use request_api::Req;
use resty_base::{Bytes, Ms};
use run_contract::{NoJob, RunContract, RunSeen, RunTurn};
use std::alloc::{AllocError, Global};
use std::marker::PhantomData;
use std::mem::replace;
use strand_contract::Answer;
use uri_args::Target;

/// A run that begins with this to do, and its first turn.
fn beginning<M>(
    work: Work,
    has_client: bool,
    turn: Result<RunTurn<NoJob>, AllocError>,
) -> Result<(LuaRun<M>, RunTurn<NoJob>), AllocError>
    ensures work { IfOk result (λ r. r.0.work ≡ work) }
    ensures client { IfOk result (λ r. r.0.has_client ≡ has_client) }
    ensures turn { IfOk result (λ r. turn ≡ Ok r.1) }
{
    match turn {
        Ok(turn) => {
            let run = LuaRun {
                work,
                has_client,
                machine: PhantomData,
            };
            Ok((run, turn))
        }
        Err(fault) => {
            drop(work);
            Err(fault)
        }
    }
}

impl<M: Machine> RunContract for LuaRun<M> {
    ghost use Rattle.std.specs.Prelude.{◌≡◌, ◌+◌, if◌then◌else◌};
    ghost use Rattle.lua_run.specs.Runs.{Run, lua_plan, LuaHolds, left_of_work};
    ghost use Rattle.lua_run.specs.RunLaws.{lua-is-run};
    ghost use Rattle.lua_run.specs.Views.{site_seen};

    type Site = Site<M>;

    type Job = NoJob;

    ghost Inner = { Run };

    ghost meaning = { λ site. record {
      plan = lua_plan (site_seen M.life site);
      holds = λ b r. LuaHolds b r;
      stands = λ run b r. (run.work ≡ r.work) × (run.has_client ≡ r.client);
    } };

    ghost left = { λ run. left_of_work run.work + (if run.has_client then 1 else 0) };

    ghost most = { λ site. 7 };

    ghost meets = { λ site. lua-is-run (site_seen M.life site) };

    ghost apart = { λ site run b c r same stands. stands };

    fn zones(site: &Site<M>) -> u32 {
        site.conf.zones.len()
    }

    fn zone_name(site: &Site<M>, zone: u32) -> Option<&Bytes> {
        match site.conf.zones.as_slice().get(zone as usize) {
            Some(zone) => Some(&zone.name),
            None => None,
        }
    }

    fn zone_size(site: &Site<M>, zone: u32) -> u64 {
        match site.conf.zones.as_slice().get(zone as usize) {
            Some(zone) => zone.size,
            None => 0,
        }
    }

    fn begin(
        alloc: Global,
        site: &Site<M>,
        now: Ms,
        _sockets: u32,
        head: Head,
        target: Target,
    ) -> Result<(Self, RunTurn<NoJob>), AllocError> {
        let req = Req::begin(alloc, head, target, 0);
        if has_handler(&site.conf, &req) {
            beginning(Work::Request(req), true, queueing(alloc))
        } else {
            let turn = working(alloc, site, now, Work::Request(req));
            beginning(Work::Over, true, turn)
        }
    }

    fn begin_job(
        alloc: Global,
        _site: &Site<M>,
        _now: Ms,
        _premature: bool,
        _job: NoJob,
    ) -> Result<(Self, RunTurn<NoJob>), AllocError> {
        beginning(Work::Job, false, queueing(alloc))
    }

    fn given(
        &mut self,
        alloc: Global,
        site: &Site<M>,
        now: Ms,
        seen: RunSeen,
    ) -> Result<RunTurn<NoJob>, AllocError> {
        match seen {
            RunSeen::Run(_) => {
                let work = replace(&mut self.work, Work::Over);
                working(alloc, site, now, work)
            }
            RunSeen::ClientGone => {
                self.has_client = false;
                Ok(silent(alloc))
            }
            RunSeen::Due(_)
            | RunSeen::Body(_, _)
            | RunSeen::BodyRefused(_)
            | RunSeen::AllTaken
            | RunSeen::NotYet
            | RunSeen::ClientEnded
            | RunSeen::Sock(_, _) => Ok(silent(alloc)),
        }
    }

    fn answer(
        &mut self,
        alloc: Global,
        site: &Site<M>,
        now: Ms,
        _answer: Answer,
    ) -> Result<RunTurn<NoJob>, AllocError> {
        let work = replace(&mut self.work, Work::Over);
        working(alloc, site, now, work)
    }

    fn queued(&self, _site: &Site<M>, _socket: u32) -> &[u8] {
        &[]
    }

    fn wants(&self, _socket: u32) -> bool {
        false
    }
}
