// What a reporter tells of the run.
ghost use Rattle.std.specs.Prelude.{◌≡◌, [], IfOk, Some, slice_index, slice_index_or};
ghost use Rattle.std.specs.Str.{chars};
ghost use Rattle.xd_run.specs.Collections.{key};
ghost use Rattle.xd_run.specs.Plan.{base, items_named};
ghost use Rattle.xd_run.specs.Retry.{is_retry};
ghost use Rattle.xd_run.specs.Sharing.{State, ids_at};
ghost use Rattle.xd_run.specs.Workers.{is_shut, slot_of};
ghost use Rattle.xd_report.specs.Follows.{Follows};
ghost use Rattle.xd_report.specs.Tests.{crash_of, head, id_of, item_id, mode_of, tests};

use crate::reporter::Reporter;
use std::alloc::Global;
use xd_books::is_each;
use xd_edge::{ModeKind, OutOfMemory, Text};
use xd_held::{each_more, sum_of};

impl Reporter {
    pub(crate) fn mode(&self) -> ModeKind
        ensures { (s : State) → Follows self.now s → result ≡ mode_of s }
    {
        self.books.settings().mode
    }

    pub(crate) fn is_shut(&self, worker: u32) -> bool
        ensures { (s : State) → Follows self.now s → result ≡ is_shut worker s.books }
    {
        self.books.is_shut(worker)
    }

    // The slot of a worker, or 0 where it was not started.
    fn slot_of(&self, worker: u32) -> u32
        ensures { (s : State) → Follows self.now s → result ≡ slot_of worker s.books }
    {
        self.books.slot_of(worker)
    }

    // The ids of a worker's tests.
    pub(crate) fn ids(&self, worker: u32) -> &[Text]
        ensures { (s : State) → Follows self.now s →
            result.now ≡ ids_at (key worker s.books) s.books.lists }
    {
        self.books.ids_at(self.books.key(worker))
    }

    // The id of the test that a worker calls by this number.
    pub(crate) fn id_of(&self, worker: u32, index: u64) -> &str
        ensures { (s : State) → Follows self.now s → chars result.now ≡ id_of worker index s }
    {
        id_at(self.ids(worker), index)
    }

    // The id of an item of a worker's slot.
    pub(crate) fn item_id(&self, worker: u32, item: u64) -> Result<&str, OutOfMemory>
        ensures { (s : State) → Follows self.now s →
            IfOk result (λ id. chars id.now ≡ item_id worker item s) }
    {
        let base = self.base(worker)?;
        Ok(self.id_of(worker, item.saturating_sub(base)))
    }

    // The first item that a worker holds.
    pub(crate) fn head(&self, worker: u32) -> Option<u64>
        ensures { (s : State) → Follows self.now s → result ≡ head worker s }
    {
        xd_held::head_in(&self.rota, worker)
    }

    // Where the worker goes down, the test at its head is tried again.
    pub(crate) fn is_retry(&self, worker: u32) -> bool
        ensures { (s : State) → Follows self.now s → result ≡ is_retry worker s.books }
    {
        self.books.retries_head(self.head(worker))
    }

    // The item that is reported where the worker goes down.
    pub(crate) fn crash_of(&self, worker: u32) -> Option<u64>
        ensures { (s : State) → Follows self.now s → result ≡ crash_of worker s }
    {
        if self.is_retry(worker) {
            None
        } else {
            self.head(worker)
        }
    }

    // The first item of a worker's slot.
    pub(crate) fn base(&self, worker: u32) -> Result<u64, OutOfMemory>
        ensures { (s : State) → Follows self.now s →
            IfOk result (λ n. n ≡ base (slot_of worker s.books) s.plan) }
    {
        if !is_each(self.books.settings().mode) {
            return Ok(0);
        }
        let slot = (self.slot_of(worker) as usize).min(self.sizes.len());
        let base = sum_of(&self.sizes[..slot])?;
        Ok(base)
    }

    // The items that a worker calls by these numbers.
    pub(crate) fn items(
        &self,
        alloc: Global,
        worker: u32,
        indices: &[u32],
    ) -> Result<Vec<u64>, OutOfMemory>
        ensures { (s : State) → Follows self.now s →
            IfOk result (λ items. items.items ≡ items_named
            (slot_of worker s.books) indices.now s.plan) }
    {
        let base = self.base(worker)?;
        let items = each_more(alloc, base, indices)?;
        Ok(items)
    }

    // How many tests a worker's slot has.
    pub(crate) fn size(&self, worker: u32) -> u64
        ensures { (s : State) → Follows self.now s →
            result ≡ slice_index s.plan.sizes (slot_of worker s.books) }
    {
        match self.sizes.get(self.slot_of(worker) as usize) {
            Some(size) => *size,
            None => 0,
        }
    }

    // How many tests the run has.
    pub(crate) fn tests(&self) -> Result<u64, OutOfMemory>
        ensures { (s : State) → Follows self.now s → IfOk result (λ n. n ≡ tests s) }
    {
        match self.mode() {
            ModeKind::Local => Ok(self.books.ids_at(0).len() as u64),
            _ => sum_of(&self.sizes),
        }
    }
}

fn id_at(ids: &[Text], index: u64) -> &str
    ensures { chars result.now ≡ slice_index_or ids.now index [] }
{
    match ids.get(index as usize) {
        Some(id) => id.as_str(),
        None => "",
    }
}
