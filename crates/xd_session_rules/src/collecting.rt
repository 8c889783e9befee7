// A worker collected: it joins, and the last one that was missing brings the share.
ghost use Rattle.std.specs.Prelude.{◌≡◌, ◌&&◌, ◌≤◌, nat_le, length, sum, true, false, None, [], OnOk, IfOk, if◌then◌else◌};
ghost use Rattle.std.specs.List.{list_all};
ghost use Rattle.xd_ledger.specs.Calls.{Turned};
ghost use Rattle.xd_run.specs.Meaning.{given_ids};
ghost use Rattle.xd_run.specs.Modes.ModeCall.{Share};
ghost use Rattle.xd_run.specs.Outputs.{acts_of, outputs_of_joining, slots_of_rota};
ghost use Rattle.xd_edge.specs.Limits.{most_tests};
ghost use Rattle.xd_edge.specs.Ids.{is_id};
ghost use Rattle.xd_run.specs.Proper.{no_text_twice};
ghost use Rattle.xd_run.specs.Sharing.{State, ids_at, is_full, joining, shared_now, shared_plan, sizes_from};
ghost use Rattle.xd_run.specs.Plan.{Plan, is_each};
ghost use Rattle.xd_ledger.specs.Sound.{most_items};
ghost use Rattle.xd_run.specs.Suits.{Suits};
ghost use Rattle.xd_run.specs.Books.{on_table};
ghost use Rattle.xd_run.specs.Stops.{is_stopped};
ghost use Rattle.xd_run.specs.Table.{has_joined, in_rota, joined};
ghost use Rattle.xd_run.specs.Workers.{is_shut, slot_of};
ghost use Rattle.xd_session_books.specs.Compared.{stop_of_comparison};
ghost use Rattle.xd_session_books.specs.Books.{books_of};
ghost use Rattle.xd_session_rules.specs.Joining.{IsBare, IsToJoin, TakenIn, filled, shared_in, sizes_in};
ghost use Rattle.xd_session_books.specs.Known.{known_by};
ghost use Rattle.xd_session_rules.specs.Rules.{Acted, At, Comes, MayJoin, MayShare, Ruled};

use crate::outputs::{note, shut_everyone};
use crate::state::{RunState, take_acts};
use std::alloc::Global;
use xd_books::is_each;
use xd_edge::{Indices, ModeKind, OutOfMemory, Text, Texts};
use xd_journal::{Entry, RunStop};
use xd_ledger::{Ledger, Mode};
use xd_run::{Listed, Mark};
use xd_session_books::{Comparison, RunBooks, place_of, total_of};

// The ids that stand for the slot.
fn ids_of<'a>(slot: u32, lists: &'a [Listed], none: &'a Texts) -> &'a Texts
    requires none { none.now ≡ [] }
    requires few { list_all (λ l. nat_le (length l.ids) most_tests) lists.now ≡ true }
    ensures ids { result.now ≡ ids_at slot lists.now }
    ensures few { length result.now ≤ most_tests }
{
    let place = place_of(lists, slot);
    if place < lists.len() {
        return &lists[place].ids;
    }
    none
}

// How many tests each of n slots has, in order.
#[tactic(auto, using(crate::proofs::Shares::sizes_next))]
fn sizes_of_slots(
    alloc: Global,
    slots: u32,
    lists: &[Listed],
    none: &Texts,
) -> Result<Indices, OutOfMemory>
    requires none { none.now ≡ [] }
    requires few { list_all (λ l. nat_le (length l.ids) most_tests) lists.now ≡ true }
    ensures { IfOk result (λ sizes. sizes ≡ sizes_from lists.now 0 slots) }
{
    let mut items = Vec::new(alloc);
    for slot in 0..slots {
        let ids = ids_of(slot, lists, none);
        items.push(ids.items.len() as u32)?;
    }
    Ok(Indices { items })
}

// How many slots have tests of their own.
fn slots_shared(kind: ModeKind, workers: u32) -> u32
    ensures { result ≡ (if is_each kind then workers else 1) }
{
    if is_each(kind) {
        return workers;
    }
    1
}

// The slots of the workers of the rota, in rota order.
fn slots_of(alloc: Global, books: &RunBooks) -> Result<Indices, OutOfMemory>
    ensures { IfOk result (λ slots. slots ≡ slots_of_rota (books_of books.now)) }
{
    let mut items = Vec::new(alloc);
    for place in 0..books.ledger.rota_len() {
        let worker = books.ledger.rota_at(place);
        items.push(books.kept.slot_of(worker))?;
    }
    Ok(Indices { items })
}

// The rota has as many workers as the settings say, for the first time.
fn is_full(books: &RunBooks) -> bool
    ensures { result ≡ is_full (books_of books.now) }
{
    !books.kept.is_shared() && books.ledger.rota_len() == books.kept.settings().workers
}

// The worker joins the rota.
fn seat(alloc: Global, worker: u32, books: &mut RunBooks) -> Result<(), OutOfMemory>
    requires { has_joined worker books.old.ledger ≡ false }
    ensures books { OnOk result
        (books_of books.new ≡ on_table (joined worker) (books_of books.old)) }
    ensures seated { OnOk result (in_rota worker books.new.ledger ≡ true) }
    ensures bare { OnOk result (IsBare books.old.ledger → IsBare books.new.ledger) }
{
    books.ledger.join(alloc, worker)?;
    Ok(())
}

// n tests of each slot come into the pool, and the mode deals them.
fn deal<M: Mode>(
    alloc: Global,
    slots: &[u32],
    sizes: &[u32],
    ids: &[Text],
    mode: &mut M,
    ledger: &mut Ledger,
    acts: &mut Vec<Entry>,
) -> Result<(), OutOfMemory>
    requires few { sum sizes.now ≤ most_items }
    requires bare { IsBare ledger.old }
    requires suits { let pooled = filled sizes.now ledger.old in
        Suits (Share slots.now) (shared_plan sizes.now ids.now) pooled (M.stands mode.old) }
    ensures { OnOk result ((p : Plan) → M.stands mode.old p →
        let pooled = filled sizes.now ledger.old in
        Turned (Share slots.now) (shared_plan sizes.now ids.now p) pooled acts.old.items
        ledger.new acts.new.items (M.stands mode.new)) }
{
    ledger.fill(alloc, total_of(sizes))?;
    mode.share(alloc, slots, sizes, ids, ledger, acts)?;
    Ok(())
}

// The mode deals the tests: in mode each those of each slot, else those of the run. Gives how many each slot has.
#[tactic(auto, using(crate::proofs::Shares::few_in_all))]
fn deal_all<M: Mode>(
    alloc: Global,
    kind: ModeKind,
    mode: &mut M,
    books: &mut RunBooks,
    acts: &mut Vec<Entry>,
) -> Result<Indices, OutOfMemory>
    requires bare { IsBare books.old.ledger }
    requires suits { let b = books_of books.old in
        let pooled = filled (sizes_in kind b) books.old.ledger in
        Suits (Share (slots_of_rota b)) (shared_in kind b) pooled (M.stands mode.old) }
    ensures sizes { IfOk result (λ sizes. sizes ≡ sizes_in kind (books_of books.old)) }
    ensures few { IfOk result (λ sizes. sum sizes ≤ most_items) }
    ensures books { OnOk result
        (books_of books.new ≡ on_table (λ t. books.new.ledger) (books_of books.old)) }
    ensures dealt { OnOk result ((p : Plan) → M.stands mode.old p →
        let b = books_of books.old in
        let pooled = filled (sizes_in kind b) books.old.ledger in
        Turned (Share (slots_of_rota b)) (shared_in kind b p) pooled acts.old.items
        books.new.ledger acts.new.items (M.stands mode.new)) }
{
    let none = Texts {
        items: Vec::new(alloc),
    };
    let slots = slots_of(alloc, books)?;
    let count = slots_shared(kind, books.kept.settings().workers);
    let sizes = sizes_of_slots(alloc, count, books.kept.lists(), &none)?;
    let ids = ids_of(0, books.kept.lists(), &none);
    deal(
        alloc,
        &slots.items,
        &sizes.items,
        &ids.items,
        mode,
        &mut books.ledger,
        acts,
    )?;
    Ok(sizes)
}

impl<M: Mode> RunState<M> {
    // All tests come into the pool, and the mode deals them.
    fn share(&mut self, alloc: Global, entries: &mut Vec<Entry>) -> Result<(), OutOfMemory>
        requires bare { IsBare self.old.books.ledger }
        requires at { (s : State)
            × (At s (books_of self.old.books) (known_by self.old.known) (M.stands self.old.mode)
            × MayShare s) }
        ensures { OnOk result ((s : State) →
            At s (books_of self.old.books) (known_by self.old.known) (M.stands self.old.mode) →
            MayShare s →
            Acted (acts_of (Share (slots_of_rota s.books)) (shared_now s)) (shared_now s)
            (books_of self.new.books)
            (known_by self.new.known) entries.old.items entries.new.items
            (M.stands self.new.mode)) }
    {
        let mut acts = Vec::new(alloc);
        let sizes = deal_all(
            alloc,
            self.known.mode,
            &mut self.mode,
            &mut self.books,
            &mut acts,
        )?;
        self.books.share();
        self.known.sizes = sizes;
        take_acts(alloc, &mut acts, &mut self.books, &mut self.known, entries)?;
        Ok(())
    }

    // The worker joins, and what that brings.
    fn join(
        &mut self,
        alloc: Global,
        worker: u32,
        entries: &mut Vec<Entry>,
    ) -> Result<(), OutOfMemory>
        requires new { has_joined worker self.old.books.ledger ≡ false }
        requires bare { (books_of self.old.books).shared ≡ false → IsBare self.old.books.ledger }
        requires at { (s : State)
            × (At s (books_of self.old.books) (known_by self.old.known) (M.stands self.old.mode)
            × MayJoin worker s) }
        ensures { OnOk result ((s : State) →
            At s (books_of self.old.books) (known_by self.old.known) (M.stands self.old.mode) →
            MayJoin worker s →
            Acted (outputs_of_joining worker s.books (joining worker s)) (joining worker s)
            (books_of self.new.books)
            (known_by self.new.known) entries.old.items entries.new.items
            (M.stands self.new.mode)) }
    {
        seat(alloc, worker, &mut self.books)?;
        if self.books.kept.is_shared() {
            self.call_joined(alloc, worker, entries)?;
            return Ok(());
        }
        if is_full(&self.books) {
            self.share(alloc, entries)?;
            return Ok(());
        }
        Ok(())
    }

    // A collection that differs stops the run and all are shut, with any other the worker joins.
    fn take_in(
        &mut self,
        alloc: Global,
        worker: u32,
        comparison: Comparison,
        entries: &mut Vec<Entry>,
    ) -> Result<(), OutOfMemory>
        requires new { has_joined worker self.old.books.ledger ≡ false }
        requires bare { (books_of self.old.books).shared ≡ false → IsBare self.old.books.ledger }
        requires going { is_stopped (books_of self.old.books) ≡ false }
        requires at { stop_of_comparison worker comparison ≡ None →
            (s : State) × (At s (books_of self.old.books) (known_by self.old.known)
            (M.stands self.old.mode) × MayJoin worker s) }
        ensures { OnOk result ((s : State) →
            At s (books_of self.old.books) (known_by self.old.known) (M.stands self.old.mode) →
            (stop_of_comparison worker comparison ≡ None → MayJoin worker s) →
            TakenIn worker (stop_of_comparison worker comparison) s (books_of self.new.books)
            (known_by self.new.known) entries.old.items entries.new.items
            (M.stands self.new.mode)) }
    {
        match comparison {
            Comparison::Differs { other, place } => {
                self.books.stop_by(RunStop::Unequal {
                    worker,
                    other,
                    place,
                });
                shut_everyone(alloc, &mut self.books, entries)?;
                Ok(())
            }
            Comparison::First | Comparison::Same => {
                self.join(alloc, worker, entries)?;
                Ok(())
            }
        }
    }

    /// A worker gave its collection. One that was told to shut down before does not join.
    pub fn collected(
        &mut self,
        alloc: Global,
        worker: u32,
        own: Texts,
        entries: &mut Vec<Entry>,
    ) -> Result<(), OutOfMemory>
        requires few { length own ≤ most_tests }
        requires ordered { (list_all is_id own && no_text_twice own) ≡ true }
        requires joins { IsToJoin worker (books_of self.old.books) }
        requires at { (s : State)
            × Comes (given_ids worker own s) s (books_of self.old.books) (known_by self.old.known)
            (M.stands self.old.mode) }
        ensures { OnOk result ((s : State) →
            Comes (given_ids worker own s) s (books_of self.old.books) (known_by self.old.known)
            (M.stands self.old.mode) →
            Ruled s (given_ids worker own s) (books_of self.new.books)
            (known_by self.new.known) entries.old.items entries.new.items
            (M.stands self.new.mode)) }
    {
        let shut = self.books.kept.is_shut(worker);
        let taken = self.books.take_list(alloc, worker, own)?;
        note(
            Entry::Collected {
                worker,
                ids: taken.ids,
            },
            entries,
        )?;
        self.books.mark(worker, Mark::Collected);
        if shut {
            self.finish(alloc, entries)?;
            return Ok(());
        }
        self.take_in(alloc, worker, taken.comparison, entries)?;
        self.finish(alloc, entries)?;
        Ok(())
    }
}
