// The session.
ghost use Rattle.std.specs.Prelude.{◌≡◌, List, ◌++◌, ◌∷◌, [], length, true, false, OnOk, OnErr, IfOk};
ghost use Rattle.xd_journal.specs.declared.news.News.{News};
ghost use Rattle.xd_run.specs.Histories.{is_over};
ghost use Rattle.xd_run.specs.Owes.{someone_owes};
ghost use Rattle.xd_run.specs.State.{no_one};
ghost use Rattle.xd_run.specs.Workers.{is_active};
ghost use Rattle.xd_session_books.specs.Books.{books_of};
ghost use Rattle.xd_run.specs.Ending.{ending, may_close, stop_of};
ghost use Rattle.xd_run.specs.Legal.{IsLegal};
ghost use Rattle.xd_session.specs.Ends.{is_out_fault, last_stop};
ghost use Rattle.xd_session.specs.Stands.{CanBegin, StandsForNews, state_of};

use crate::step::Step;
use crate::take::Core;
use std::alloc::Global;
use std::marker::Model;
use xd_edge::OutOfMemory;
use xd_journal::{Journal, News, Settings};
use xd_ledger::Mode;
use xd_session_books::{KnownPlan, Logs, RunBooks};
use xd_session_rules::{RunState, end, start_all};

/// The part of the controller that decides. It stands for the news that it took: its journal is the one that they make.
/// Once it runs out of memory it is given up.
#[derive(Drop)]
pub struct Session<M: Mode> {
    core: Core<M>,
    journal: Journal,
    whole: bool,
}

impl<M: Mode> Model for Session<M> {
    ghost use Rattle.std.specs.Prelude.{◌≡◌, List, true};
    ghost use Rattle.xd_session.specs.Stands.{SessionSeen};
    ghost use Rattle.xd_session_books.specs.Books.{books_of};
    ghost use Rattle.xd_session_books.specs.Known.{known_by};
    ghost use Rattle.xd_session_rules.specs.Rules.{InStep};

    ghost Value = { SessionSeen };

    ghost view = { λ s. record {
      settings = s.journal.settings;
      entries = s.journal.entries.items;
      logs = s.core.logs;
      whole = s.whole;
    } };

    ghost invariant = { λ s. s.whole ≡ true →
        InStep s.journal.settings s.journal.entries.items s.core.logs s.core.spent
        (books_of s.core.state.books) (known_by s.core.state.known) (M.stands s.core.state.mode) };
}

impl<M: Mode> Session<M> {
    /// The session at the start of a run with 1 to 32 workers and at most 1,000 restarts, with a mode at its start by these
    /// settings. Its journal has the Start entries of the first workers.
    pub fn new(alloc: Global, settings: Settings, mode: M) -> Result<Session<M>, OutOfMemory>
        requires settings { CanBegin settings }
        requires fresh { M.stands mode (no_one settings).plan }
        ensures stands { IfOk result (λ s. StandsForNews [] s) }
        ensures owes { IfOk result (λ s. is_over (state_of s).books ≡ false →
            someone_owes (state_of s) ≡ true) }
        ensures settings { IfOk result (λ s. s.settings ≡ settings) }
    {
        let mut books = RunBooks::new(alloc, settings)?;
        let mut journal = Journal::new(alloc, settings);
        start_all(settings.workers, &mut books, &mut journal.entries)?;
        let core = Core {
            state: RunState {
                mode,
                books,
                known: KnownPlan::new(alloc, settings.mode),
            },
            logs: Logs::new(alloc),
            spent: 0,
        };
        Ok(Session {
            core,
            journal,
            whole: true,
        })
    }

    /// One piece of news of an active worker. Gives the places of the entries that it added to the journal. Where the run
    /// is not over then, some worker owes the next step. After an error the session is given up.
    pub fn step(&mut self, alloc: Global, news: News) -> Result<Step, OutOfMemory>
        requires whole { self.old.whole ≡ true }
        requires active { is_active news.worker (state_of self.old).books ≡ true }
        ensures stands { OnOk result ((taken : List News) → StandsForNews taken self.old →
            StandsForNews (taken ++ news ∷ []) self.new) }
        ensures whole { OnOk result (self.new.whole ≡ true) }
        ensures owes { OnOk result (is_over (state_of self.new).books ≡ false →
            someone_owes (state_of self.new) ≡ true) }
        ensures places { IfOk result (λ p. (p.from ≡ length self.old.entries)
            × (p.to ≡ length self.new.entries)) }
        ensures settings { self.new.settings ≡ self.old.settings }
        ensures given_up { OnErr result (self.new.whole ≡ false) }
    {
        let from = self.journal.entries.len();
        self.whole = false;
        let News { worker, what } = news;
        self.core
            .take(alloc, worker, what, &mut self.journal.entries)?;
        self.whole = true;
        Ok(Step {
            from,
            to: self.journal.entries.len(),
        })
    }

    /// The worker, counted from 0 in the order of the starts, was started and has neither finished nor gone.
    pub fn is_active(&self, worker: u32) -> bool
        requires { self.now.whole ≡ true }
        ensures { result ≡ is_active worker (state_of self.now).books }
    {
        self.core.state.books.kept.is_active(worker)
    }

    /// The run is shutting and no worker is active.
    pub fn over(&self) -> bool
        requires { self.now.whole ≡ true }
        ensures { result ≡ is_over (state_of self.now).books }
    {
        self.core.state.books.kept.is_over()
    }

    /// The journal so far.
    pub fn journal(&self) -> &Journal
        ensures settings { result.now.settings ≡ self.now.settings }
        ensures entries { result.now.entries.items ≡ self.now.entries }
        ensures legal { self.now.whole ≡ true → IsLegal result.now }
    {
        &self.journal
    }

    /// The journal with its end: Over with the run's stop where the run is over. Where the output failed, a Kill of each
    /// active worker in order of worker numbers, and Over with `OutFault`.
    pub fn close(mut self, out_failed: bool) -> Result<Journal, OutOfMemory>
        requires whole { self.whole ≡ true }
        requires done { may_close out_failed (state_of self).books ≡ true }
        ensures settings { IfOk result (λ j. j.settings ≡ self.settings) }
        ensures entries { IfOk result (λ j.
            j.entries.items ≡ self.entries ++ ending out_failed (state_of self).books) }
        ensures stop { IfOk result (λ j. stop_of j ≡ last_stop out_failed (state_of self).books) }
        ensures told { IfOk result (λ j. is_out_fault (stop_of j) ≡ out_failed) }
        ensures legal { IfOk result IsLegal }
    {
        end(
            out_failed,
            &self.core.state.books,
            &mut self.journal.entries,
        )?;
        Ok(self.journal)
    }
}
