// A starter in memory.
ghost use Rattle.std.specs.Prelude.{◌≡◌, ◌≢◌, ◌<◌, ◌^◌, [], Some, All, length, vec_len, IfOk, OnOk, IsErrOf, is_ok, ◌∷◌, ◌≤◌, OnErr, IsErr};
ghost use Rattle.xd_edge.specs.Faults.{Counted};
ghost use Rattle.xd_memory.specs.FreshPair.{IsFresh};
ghost use Rattle.xd_link.specs.Starter.{link_not_failed, link_changed, as_killed, as_reaped, more_often, with_start, with_failure, with_link};

use crate::{MemSink, MemSource};
use std::alloc::Global;
use std::collections::VecDeque;
use std::sync::Wait;
use xd_edge::{Failed, FaultPlan, Indices};
use xd_link::{LinkRun, Place, Reaped, StartFault, StartRun, Started, Starter};

/// A starter in memory, which hands out prepared links in order, whatever the place. A start that is to fail takes
/// none, and one after the last link fails.
#[derive(Drop)]
pub struct MemStarter {
    pub links: VecDeque<(MemSource, MemSink)>,
    pub starts: Vec<StartRun>,
    pub begun: Vec<LinkRun>,
    pub plan: FaultPlan,
    ghost fresh: { All (λ l. IsFresh l.0 l.1) links.items },
}

impl MemStarter {
    /// These links, none of them started.
    pub fn new(alloc: Global, links: VecDeque<(MemSource, MemSink)>, fails: Indices) -> MemStarter
        // Nothing was read from, written to or closed at any of them, and none has failed.
        requires { All (λ l. IsFresh l.0 l.1) links.items }
        ensures links { result.links ≡ links }
        ensures starts { result.starts.items ≡ [] }
        ensures begun { result.begun.items ≡ [] }
        ensures fails { result.plan.fails ≡ fails }
        ensures count { result.plan.faults ≡ 0 }
    {
        MemStarter {
            links,
            starts: Vec::new(alloc),
            begun: Vec::new(alloc),
            plan: FaultPlan::new(fails),
        }
    }

    /// The next prepared link and its number, or a fault where there is none or the start is to fail.
    fn next_link(&mut self) -> Result<(u32, MemSource, MemSink), Failed>
        ensures number { IfOk result (λ l. l.0 ≡ vec_len self.old.begun) }
        ensures fresh { IfOk result (λ l. IsFresh l.1 l.2) }
        ensures takes { IfOk result (λ l.
            self.old.links.items ≡ (l.1, l.2) ∷ self.new.links.items) }
        ensures none_taken { OnErr result (self.new.links.items ≡ self.old.links.items) }
        ensures last { 2 ^ 32 ≤ vec_len self.old.begun → IsErr result }
        ensures begun { self.new.begun ≡ self.old.begun }
        ensures starts { self.new.starts ≡ self.old.starts }
        ensures fails { self.new.plan.fails ≡ self.old.plan.fails }
        ensures counted { Counted (is_ok result) self.old.plan.faults self.new.plan.faults }
        ensures calm { self.old.plan.fails ≡ [] → self.old.links.items ≢ [] →
            vec_len self.old.begun < 2 ^ 32 → self.new.plan.faults ≡ self.old.plan.faults }
    {
        self.plan.step()?;
        let Ok(link) = u32::try_from(self.begun.len()) else {
            return Err(self.plan.fault());
        };
        match self.links.pop_front() {
            Some((source, sink)) => Ok((link, source, sink)),
            None => Err(self.plan.fault()),
        }
    }
}

fn note_kill(links: &mut [LinkRun], link: u32)
    ensures { links.new ≡ link_changed link as_killed links.old }
{
    let link = link as usize;
    if link < links.len() {
        let run = &mut links[link];
        run.killed = true;
        run.closed |= !run.has_child;
    }
}

fn once_more(reaped: Reaped) -> Reaped
    ensures { result ≡ more_often reaped }
{
    match reaped {
        Reaped::Never => Reaped::Once,
        Reaped::Once | Reaped::More => Reaped::More,
    }
}

fn note_reaping(links: &mut [LinkRun], link: u32)
    ensures { links.new ≡ link_changed link as_reaped links.old }
{
    let link = link as usize;
    if link < links.len() {
        let run = &mut links[link];
        run.reaped = once_more(run.reaped);
    }
}

impl Starter for MemStarter {
    ghost use Rattle.xd_memory.specs.MemStarter.{begun_of};

    type Src = MemSource;

    type Snk = MemSink;

    ghost faults = { λ s. s.plan.faults };

    ghost begun = { λ s. Some (record { starts = s.starts.items; links = s.begun.items }) };

    fn start(
        &mut self,
        alloc: Global,
        place: &Place,
    ) -> Result<Started<MemSource, MemSink>, StartFault>
        ensures number { IfOk result (λ l. l.link ≡ length self.old.begun.items) }
        ensures started { OnOk result
            (begun_of self.new ≡ with_start place.now (begun_of self.old)) }
        ensures failed { IsErrOf result StartFault.Failed →
            begun_of self.new ≡ with_failure place.now (begun_of self.old) }
        ensures memory { IsErrOf result StartFault.OutOfMemory →
            begun_of self.new ≡ begun_of self.old }
        ensures fresh { IfOk result (λ l. IsFresh l.source l.sink) }
        ensures takes { IfOk result (λ l.
            self.old.links.items ≡ (l.source, l.sink) ∷ self.new.links.items) }
        ensures none_taken { OnErr result (self.new.links.items ≡ self.old.links.items) }
        ensures last { 2 ^ 32 ≤ vec_len self.old.begun → IsErr result }
        ensures fails { self.new.plan.fails ≡ self.old.plan.fails }
        ensures counted { Counted
            (link_not_failed result) self.old.plan.faults self.new.plan.faults }
        ensures calm { self.old.plan.fails ≡ [] → self.old.links.items ≢ [] →
            vec_len self.old.begun < 2 ^ 32 → self.new.plan.faults ≡ self.old.plan.faults }
    {
        let place = place.copy(alloc)?;
        self.starts.reserve(1)?;
        self.begun.reserve(1)?;
        let started = self.next_link();
        let has_child = place.has_child();
        self.starts.push(StartRun {
            place,
            failed: started.is_err(),
        })?;
        let Ok((link, source, sink)) = started else {
            return Err(StartFault::Failed);
        };
        self.begun.push(LinkRun {
            has_child,
            killed: false,
            closed: false,
            reaped: Reaped::Never,
        })?;
        Ok(Started { link, source, sink })
    }

    fn kill(&mut self, link: u32) -> Result<(), Failed>
        ensures killed { begun_of self.new ≡ with_link link as_killed (begun_of self.old) }
        ensures counted { Counted (is_ok result) self.old.plan.faults self.new.plan.faults }
        ensures calm { self.old.plan.fails ≡ [] → self.new.plan.faults ≡ self.old.plan.faults }
        ensures links { self.new.links ≡ self.old.links }
        ensures fails { self.new.plan.fails ≡ self.old.plan.fails }
    {
        note_kill(&mut self.begun, link);
        self.plan.step()?;
        Ok(())
    }

    fn reap<R: Wait>(&mut self, _rt: &R, link: u32) -> Result<(), Failed>
        ensures reaped { begun_of self.new ≡ with_link link as_reaped (begun_of self.old) }
        ensures counted { Counted (is_ok result) self.old.plan.faults self.new.plan.faults }
        ensures calm { self.old.plan.fails ≡ [] → self.new.plan.faults ≡ self.old.plan.faults }
        ensures links { self.new.links ≡ self.old.links }
        ensures fails { self.new.plan.fails ≡ self.old.plan.fails }
    {
        note_reaping(&mut self.begun, link);
        self.plan.step()?;
        Ok(())
    }
}
