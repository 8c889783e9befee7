// Results and deaths, and why a run stops.
ghost use Rattle.std.specs.Prelude.{◌≡◌, ◌+◌, ℕ, List, Some, OnOk, IfOk, if◌then◌else◌};
ghost use Rattle.xd_run.specs.Histories.{is_over};
ghost use Rattle.xd_run.specs.Numbers.{first_of, times};
ghost use Rattle.xd_run.specs.Retry.{has_retries, may_restart, retries_first};
ghost use Rattle.xd_run.specs.Deaths.{gone, limited, lost_with};
ghost use Rattle.xd_run.specs.Results.{scored};
ghost use Rattle.xd_run.specs.Stops.{at_limit, is_shutting, is_stopped, out_of_restarts, stopped_by};

use crate::books::Books;
use xd_edge::OutOfMemory;
use xd_journal::{Outcome, RunStop};
use xd_run::Mark;

// One more. A journal with that many entries would have found no room before.
fn one_more(count: u32) -> Result<u32, OutOfMemory>
    ensures { IfOk result (λ n. n ≡ count + 1) }
{
    match count.checked_add(1) {
        Some(n) => Ok(n),
        None => Err(OutOfMemory),
    }
}

// How often an item stands there.
#[tactic(auto, using(xd_run::proofs::Changed::times_counted))]
fn times(item: u64, items: &[u64]) -> usize
    ensures { result ≡ times item items.now }
{
    items.iter().filter(|&&y| item == y).count()
}

impl Books {
    /// The first stop so far.
    pub fn first_stop(&self) -> Option<RunStop>
        ensures { result ≡ self.now.stop }
    {
        self.stop
    }

    pub fn is_stopped(&self) -> bool
        ensures { result ≡ is_stopped self.now }
    {
        self.stop.is_some()
    }

    /// No tests are handed out any more.
    pub fn is_shutting(&self) -> bool
        ensures { result ≡ is_shutting self.now }
    {
        self.stop.is_some() || self.shutting
    }

    /// The run is shutting and nobody is active.
    pub fn is_over(&self) -> bool
        ensures { result ≡ is_over self.now }
    {
        self.is_shutting() && !self.some_active()
    }

    /// The first stop counts.
    pub fn stop_by(&mut self, how: RunStop)
        ensures { self.new ≡ stopped_by (Some how) self.old }
    {
        if self.stop.is_some() {
            return;
        }
        self.stop = Some(how);
    }

    // A stop where the failures reach their limit.
    fn stop_at_limit(&mut self)
        ensures { self.new ≡ stopped_by (at_limit self.old) self.old }
    {
        if self.settings.maxfail == 0 || self.failures < self.settings.maxfail {
            return;
        }
        self.stop_by(RunStop::MaxFail {
            count: self.failures,
        });
    }

    // A stop where the worker's death is one too many.
    fn stop_at_restarts(&mut self, worker: u32)
        ensures { self.new ≡ stopped_by (out_of_restarts worker self.old) self.old }
    {
        if self.deaths <= self.settings.restarts {
            return;
        }
        self.stop_by(RunStop::Restarts {
            worker,
            limit: self.settings.restarts,
        });
    }

    // One more failure, where there was one.
    fn count_failure(&mut self, failed: bool) -> Result<(), OutOfMemory>
        ensures counted { OnOk result
            (self.new ≡ record self.old
            { failures = self.old.failures + (if failed then 1 else 0) }) }
        ensures settings { self.new.settings ≡ self.old.settings }
        ensures lists { self.new.lists ≡ self.old.lists }
    {
        if failed {
            self.failures = one_more(self.failures)?;
        }
        Ok(())
    }

    /// A test ended: a failure counts, and can reach the limit.
    pub fn score(&mut self, outcome: Outcome) -> Result<(), OutOfMemory>
        ensures scored { OnOk result (self.new ≡ scored outcome self.old) }
        ensures settings { self.new.settings ≡ self.old.settings }
        ensures lists { self.new.lists ≡ self.old.lists }
    {
        match outcome {
            Outcome::Failed(_) => {
                self.count_failure(true)?;
                self.stop_at_limit();
                Ok(())
            }
            Outcome::Passed | Outcome::Skipped => Ok(()),
        }
    }

    // A death, of a worker that held this at its head, where it held any.
    fn lose(&mut self, head: Option<u64>, retry: bool) -> Result<(), OutOfMemory>
        ensures lost { OnOk result ((items : List ℕ) → head ≡ first_of items →
            self.new ≡ lost_with retry items self.old) }
        ensures settings { self.new.settings ≡ self.old.settings }
        ensures lists { self.new.lists ≡ self.old.lists }
    {
        if let Some(item) = head {
            self.lost.push(item)?;
            self.count_failure(!retry)?;
        }
        self.deaths = one_more(self.deaths)?;
        Ok(())
    }

    /// The worker went down, with this item at its head where it held any; one that is not tried again counts as a failure. A
    /// death can reach both limits.
    pub fn bury(&mut self, worker: u32, head: Option<u64>, retry: bool) -> Result<(), OutOfMemory>
        ensures buried { OnOk result ((items : List ℕ) → head ≡ first_of items →
            self.new ≡ limited worker (gone worker (lost_with retry items self.old))) }
        ensures settings { self.new.settings ≡ self.old.settings }
        ensures lists { self.new.lists ≡ self.old.lists }
    {
        self.lose(head, retry)?;
        self.mark(worker, Mark::Gone);
        self.stop_at_limit();
        self.stop_at_restarts(worker);
        Ok(())
    }

    // One death more is made good by a new worker.
    fn may_restart(&self) -> bool
        ensures { result ≡ may_restart self.now }
    {
        self.stop.is_none() && self.deaths < self.settings.restarts
    }

    // Workers went down at the item's head fewer times than the retries say. It walks all that were lost, which are no more than
    // the deaths of a run.
    fn has_retries(&self, item: u64) -> bool
        ensures { result ≡ has_retries item self.now }
    {
        times(item, &self.lost) < self.settings.retries as usize
    }

    /// Where the worker goes down now that has this at its head, the test there is tried again.
    pub fn retries_head(&self, head: Option<u64>) -> bool
        ensures { (items : List ℕ) → head ≡ first_of items → result ≡ retries_first items self.now }
    {
        match head {
            Some(item) => self.may_restart() && self.has_retries(item),
            None => false,
        }
    }
}
