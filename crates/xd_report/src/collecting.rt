// Collections, and the share.
ghost use Rattle.std.specs.Prelude.{◌≡◌, List, IfOk, OnOk};
ghost use Rattle.xd_run.specs.Books.{marked, on_table};
ghost use Rattle.xd_run.specs.Collections.{ids_of, unequal, listed, with_list};
ghost use Rattle.xd_run.specs.Plan.{is_each};
ghost use Rattle.xd_run.specs.Sharing.{State, joining, planned, share_where_full, sizes_from, in_books};
ghost use Rattle.xd_run.specs.Collecting.{after_collected};
ghost use Rattle.xd_run.specs.Table.{joined};
ghost use Rattle.xd_run.specs.Workers.{made_collected};
ghost use Rattle.xd_report.specs.Follows.{Follows};

use crate::reporter::Reporter;
use std::alloc::Global;
use xd_books::{Books, differ_at, is_each};
use xd_edge::{OutOfMemory, Text};
use xd_journal::{Ids, RunStop};
use xd_run::Mark;

// The ids that a collection lists.
fn ids_of(given: &Ids) -> &[Text]
    ensures { result.now ≡ ids_of given.now }
{
    match given {
        Ids::List(own) => &own.items,
        Ids::Same => &[],
    }
}

// How many tests each of n slots has, from slot 0 on.
fn sizes_of(alloc: Global, books: &Books, slots: u32) -> Result<Vec<u64>, OutOfMemory>
    ensures { IfOk result (λ sizes. sizes.items ≡ sizes_from books.now.lists 0 slots) }
{
    let mut sizes = Vec::new(alloc);
    for slot in 0..slots {
        sizes.push(books.ids_at(slot).len() as u64)?;
    }
    Ok(sizes)
}

impl Reporter {
    // A worker collected.
    pub(crate) fn collect(
        &mut self,
        alloc: Global,
        worker: u32,
        given: &Ids,
    ) -> Result<(), OutOfMemory>
        ensures { (s : State) → Follows self.old s →
            OnOk result (Follows self.new (after_collected worker given.now s)) }
    {
        let differs = self.unequal(worker, given)?;
        self.list(alloc, worker, given)?;
        if self.is_shut(worker) {
            return Ok(());
        }
        match differs {
            Some(how) => {
                self.stop_by(how);
                Ok(())
            }
            None => self.join(alloc, worker),
        }
    }

    // The stop of a collection that differs from the one that it is compared with.
    fn unequal(&self, worker: u32, given: &Ids) -> Result<Option<RunStop>, OutOfMemory>
        ensures { (s : State) → Follows self.now s →
            IfOk result (λ stop. stop ≡ unequal worker given.now (listed worker s.books)) }
    {
        let Ids::List(own) = given else {
            return Ok(None);
        };
        let Some(first) = self.books.listed(worker) else {
            return Ok(None);
        };
        match differ_at(&first.ids.items, &own.items)? {
            Some(place) => Ok(Some(RunStop::Unequal {
                worker,
                other: first.worker,
                place,
            })),
            None => Ok(None),
        }
    }

    // A collection that is the first of its slot is kept, and the worker has collected.
    fn list(&mut self, alloc: Global, worker: u32, given: &Ids) -> Result<(), OutOfMemory>
        ensures { (s : State) → Follows self.old s →
            OnOk result (Follows self.new
            (in_books (λ b. marked (made_collected worker) (with_list worker given.now b)) s)) }
    {
        self.books.list(alloc, worker, ids_of(given))?;
        self.books.mark(worker, Mark::Collected);
        Ok(())
    }

    // A worker joins the rota, and the last one that was missing brings the share.
    fn join(&mut self, alloc: Global, worker: u32) -> Result<(), OutOfMemory>
        ensures { (s : State) → Follows self.old s →
            OnOk result (Follows self.new (joining worker s)) }
    {
        self.sit(alloc, worker)?;
        self.share_where_full(alloc)
    }

    // A worker joins the rota.
    fn sit(&mut self, alloc: Global, worker: u32) -> Result<(), OutOfMemory>
        ensures { (s : State) → Follows self.old s →
            OnOk result (Follows self.new (in_books (on_table (joined worker)) s)) }
    {
        xd_held::join(alloc, &mut self.rota, worker)?;
        Ok(())
    }

    fn share_where_full(&mut self, alloc: Global) -> Result<(), OutOfMemory>
        ensures { (s : State) → Follows self.old s →
            OnOk result (Follows self.new (share_where_full s)) }
    {
        let workers = self.books.settings().workers;
        if !self.books.is_shared() && self.rota.len() == workers as usize {
            self.sizes = self.sizes_now(alloc)?;
            self.books.share();
        }
        Ok(())
    }

    // How many tests each slot has.
    fn sizes_now(&self, alloc: Global) -> Result<Vec<u64>, OutOfMemory>
        ensures { (s : State) → Follows self.now s →
            IfOk result (λ sizes. sizes.items ≡ (planned s.books.lists s.books.settings.workers
            s.plan).sizes) }
    {
        let settings = self.books.settings();
        let slots = if is_each(settings.mode) {
            settings.workers
        } else {
            1
        };
        sizes_of(alloc, &self.books, slots)
    }
}
