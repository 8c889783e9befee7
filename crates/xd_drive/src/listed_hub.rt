// A hub over lists.
ghost use Rattle.std.specs.Prelude.{◌≡◌, ◌<◌, ◌≤◌, ◌+◌, ◌++◌, ◌∷◌, [], ℕ, Some, true, false, option_to_list, slice_index, vec_len, vec_capacity, IfOk, IfSome, IsNone, OnOk};
ghost use Rattle.xd_journal.specs.declared.entry.Entry.TheVariants.{Start, Kill};
ghost use Rattle.xd_drive.specs.Calls.{is_order};
ghost use Rattle.xd_drive.specs.Listed.{GivesListed, from_started, is_listed, marks_by, may_give, place_of_turn, refusal_of, unkilled, was_killed};
ghost use Rattle.xd_journal.specs.Said.{is_breach};
ghost use Rattle.xd_drive.specs.Marks.{may_tell, no_marks};

use crate::Hub;
use crate::copies::{copy_news, copy_order};
use std::alloc::Global;
use std::collections::VecDeque;
use std::sync::Wait;
use xd_edge::{Indices, OutOfMemory};
use xd_journal::{Cause, Entry, News, What};

/// A hub over lists, with 32 slots: it gives the news of its list in order. A piece of news of a worker that was not
/// started, or that a worker broke the rules, is dropped when its turn comes. Where its list is empty the workers that
/// were started are gone, in turn, again and again.
#[derive(Drop)]
pub struct ListedHub {
    /// The news that are still to be given, the next one first.
    pub news: VecDeque<News>,
    /// Copies of the news that were given, in order.
    pub given: Vec<News>,
    /// The workers that were started, in order.
    pub started: Indices,
    /// The calls that were made, in order, each as its entry.
    pub calls: Vec<Entry>,
    /// The workers whose start gives NotStarted as the next news.
    pub refused: Indices,
    /// Whose turn it is to be gone, a place in `started`.
    pub turn: usize,
    ghost roomy: { vec_len calls + unkilled calls.items started ≤ vec_capacity calls },
}

impl ListedHub {
    /// No worker was started yet.
    pub fn new(alloc: Global, news: VecDeque<News>, refused: Indices) -> ListedHub
        ensures news { result.news ≡ news }
        ensures refused { result.refused ≡ refused }
        ensures given { result.given.items ≡ [] }
        ensures started { result.started ≡ [] }
        ensures calls { result.calls.items ≡ [] }
        ensures turn { result.turn ≡ 0 }
        ensures fresh { (w : ℕ) →
            marks_by result.started result.calls.items result.given.items w ≡ no_marks }
    {
        ListedHub {
            news,
            given: Vec::new(alloc),
            started: Indices {
                items: Vec::new(alloc),
            },
            calls: Vec::new(alloc),
            refused,
            turn: 0,
        }
    }
}

fn is_among(worker: u32, workers: &[u32]) -> bool
    ensures { result ≡ is_listed worker workers.now }
{
    workers.iter().any(|&other| other == worker)
}

// The worker broke the rules.
fn is_breach(what: &What) -> bool
    ensures { result ≡ is_breach what.now }
{
    matches!(what, What::Gone(Cause::Breach))
}

// The next piece of news in the list that may be given; those before it are dropped.
fn next_listed(news: &mut VecDeque<News>, started: &[u32]) -> Option<News>
    ensures gives { from_started started.now news.old.items ≡ option_to_list result
        ++ news.new.items }
    ensures may { IfSome result (λ n. may_give started.now n ≡ true) }
    ensures spent { IsNone result → news.new.items ≡ [] }
{
    while let Some(next) = news.pop_front() {
        if is_among(next.worker, started) && !is_breach(&next.what) {
            return Some(next);
        }
    }
    None
}

// Whose turn it is to be gone. The next turn is the next worker's.
fn next_gone(started: &[u32], turn: &mut usize) -> u32
    requires { (w : ℕ) × (is_listed w started.now ≡ true) }
    ensures listed { is_listed result started.now ≡ true }
    ensures worker { result ≡ slice_index started.now (place_of_turn started.now turn.old) }
    ensures next { turn.new ≡ place_of_turn started.now turn.old + 1 }
{
    let place = if *turn < started.len() { *turn } else { 0 };
    *turn = place + 1;
    started[place]
}

// The next piece of news of a worker that was started, or that one of them is gone.
fn next_news(news: &mut VecDeque<News>, started: &[u32], turn: &mut usize) -> News
    requires { (w : ℕ) × (is_listed w started.now ≡ true) }
    ensures started { is_listed result.worker started.now ≡ true }
    ensures no_breach { is_breach result.what ≡ false }
    ensures listed { GivesListed started.now turn.old news.old.items
        result news.new.items turn.new }
{
    if let Some(next) = next_listed(news, started) {
        return next;
    }
    let worker = next_gone(started, turn);
    News {
        worker,
        what: What::Gone(Cause::Ended),
    }
}

impl ListedHub {
    // Where the start of the worker is to be refused, that is the next news.
    fn refuse(&mut self, worker: u32) -> Result<(), OutOfMemory>
        ensures news { OnOk result
            (self.new.news.items ≡ refusal_of worker self.old.refused ++ self.old.news.items) }
        ensures rest { (self.new.given ≡ self.old.given) × (self.new.started ≡ self.old.started)
            × (self.new.calls ≡ self.old.calls) × (self.new.refused ≡ self.old.refused)
            × (self.new.turn ≡ self.old.turn) }
    {
        if is_among(worker, &self.refused.items) {
            self.news.push_front(News {
                worker,
                what: What::NotStarted,
            })?;
        }
        Ok(())
    }
}

impl Hub for ListedHub {
    type Made = ();

    ghost made = { λ h. tt };

    ghost slots = { λ m. 32 };

    ghost marks = { λ h w. marks_by h.started h.calls.items h.given.items w };

    ghost seen = { λ h. Some (record { calls = h.calls.items; given = h.given.items }) };

    type Kept = ListedHub;

    ghost tells = { λ h. Some (record { calls = h.calls.items; given = h.given.items }) };

    fn kept(&self) -> &ListedHub {
        self
    }

    fn start(&mut self, _alloc: Global, worker: u32, slot: u32) -> Result<(), OutOfMemory>
        requires new { is_listed worker self.old.started ≡ false }
        requires slot { slot < 32 }
        ensures started { OnOk result (self.new.started ≡ self.old.started ++ worker ∷ []) }
        ensures called { OnOk result
            (self.new.calls.items ≡ self.old.calls.items ++ Start worker slot ∷ []) }
        ensures news { OnOk result
            (self.new.news.items ≡ refusal_of worker self.old.refused ++ self.old.news.items) }
        ensures given { OnOk result (self.new.given ≡ self.old.given) }
        ensures refused { self.new.refused ≡ self.old.refused }
        ensures turn { self.new.turn ≡ self.old.turn }
    {
        self.refuse(worker)?;
        self.calls.reserve(self.started.items.len() + 2)?;
        self.started.items.reserve(1)?;
        self.calls.push_reserved(Entry::Start { worker, slot });
        self.started.items.push_reserved(worker);
        Ok(())
    }

    fn say(&mut self, alloc: Global, worker: u32, order: &Entry) -> Result<(), OutOfMemory>
        requires order { is_order worker order.now ≡ true }
        requires told { may_tell (marks_by self.old.started self.old.calls.items
            self.old.given.items worker) ≡ true }
        ensures called { OnOk result
            (self.new.calls.items ≡ self.old.calls.items ++ order.now ∷ []) }
        ensures news { self.new.news ≡ self.old.news }
        ensures started { OnOk result (self.new.started ≡ self.old.started) }
        ensures given { OnOk result (self.new.given ≡ self.old.given) }
        ensures refused { self.new.refused ≡ self.old.refused }
        ensures turn { self.new.turn ≡ self.old.turn }
    {
        let order = copy_order(alloc, worker, order)?;
        self.calls.reserve(self.started.items.len() + 1)?;
        self.calls.push_reserved(order);
        Ok(())
    }

    fn kill(&mut self, worker: u32)
        requires started { is_listed worker self.old.started ≡ true }
        requires once { was_killed worker self.old.calls.items ≡ false }
        ensures called { self.new.calls.items ≡ self.old.calls.items ++ Kill worker ∷ [] }
        ensures news { self.new.news ≡ self.old.news }
        ensures started { self.new.started ≡ self.old.started }
        ensures given { self.new.given ≡ self.old.given }
        ensures refused { self.new.refused ≡ self.old.refused }
        ensures turn { self.new.turn ≡ self.old.turn }
    {
        self.calls.push_reserved(Entry::Kill { worker });
    }

    fn next<R: Wait>(&mut self, _rt: &R, alloc: Global) -> Result<News, OutOfMemory>
        requires someone { (w : ℕ) × (is_listed w self.old.started ≡ true) }
        ensures started { IfOk result (λ n. is_listed n.worker self.old.started ≡ true) }
        ensures no_breach { IfOk result (λ n. is_breach n.what ≡ false) }
        ensures given { IfOk result (λ n. self.new.given.items ≡ self.old.given.items ++ n ∷ []) }
        ensures same { OnOk result ((self.new.started ≡ self.old.started)
            × (self.new.calls ≡ self.old.calls)) }
        ensures refused { self.new.refused ≡ self.old.refused }
        ensures listed { IfOk result (λ n.
            GivesListed self.old.started self.old.turn self.old.news.items
            n self.new.news.items self.new.turn) }
    {
        let news = next_news(&mut self.news, &self.started.items, &mut self.turn);
        self.given.push(copy_news(alloc, &news)?)?;
        Ok(news)
    }
}
