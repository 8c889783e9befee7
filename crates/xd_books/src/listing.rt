// The collections that others are compared with.
ghost use Rattle.std.specs.Prelude.{◌≡◌, IfOk, OnErr, OnOk, MatchOption, None, Some};
ghost use Rattle.xd_journal.specs.declared.entry.Ids.TheVariants as ids;
ghost use Rattle.xd_run.specs.Collections.{differ_at, key, listed, listed_in, with_list};
ghost use Rattle.xd_run.specs.Plan.{is_each};
ghost use Rattle.xd_run.specs.Sharing.{ids_at};

use crate::books::Books;
use std::alloc::Global;
use xd_edge::{ModeKind, OutOfMemory, Text, copy_texts};
use xd_run::Listed;

pub fn is_each(mode: ModeKind) -> bool
    ensures { result ≡ is_each mode }
{
    match mode {
        ModeKind::Each => true,
        _ => false,
    }
}

// The collection of a slot.
fn listed_in(lists: &[Listed], slot: u32) -> Option<&Listed>
    ensures { MatchOption result (listed_in slot lists.now ≡ None) (λ l.
        listed_in slot lists.now ≡ Some l.now) }
{
    for listed in lists {
        if listed.slot == slot {
            return Some(listed);
        }
    }
    None
}

/// The first place where two collections differ, from 0; the shorter length where one is a part of the other. A place that has
/// no room in a number has none in memory either.
pub fn differ_at(first: &[Text], other: &[Text]) -> Result<Option<u32>, OutOfMemory>
    ensures { IfOk result (λ place. place ≡ differ_at first.now other.now) }
{
    match place_of_difference(first, other) {
        Some(place) => in_32_bits(place),
        None => Ok(None),
    }
}

fn in_32_bits(place: usize) -> Result<Option<u32>, OutOfMemory>
    ensures { IfOk result (λ number. number ≡ Some place) }
{
    match u32::try_from(place) {
        Ok(place) => Ok(Some(place)),
        Err(_) => Err(OutOfMemory),
    }
}

fn place_of_difference(first: &[Text], other: &[Text]) -> Option<usize>
    ensures { result ≡ differ_at first.now other.now }
{
    let shorter = first.len().min(other.len());
    for i in 0..shorter {
        if !first[i].is_same(&other[i]) {
            return Some(i);
        }
    }
    if first.len() == other.len() {
        None
    } else {
        Some(shorter)
    }
}

impl Books {
    /// The collections that others are compared with, in order.
    pub fn lists(&self) -> &[Listed]
        ensures { result.now ≡ self.now.lists }
    {
        &self.lists
    }

    /// The ids of a slot.
    pub fn ids_at(&self, slot: u32) -> &[Text]
        ensures { result.now ≡ ids_at slot self.now.lists }
    {
        match listed_in(&self.lists, slot) {
            Some(listed) => &listed.ids.items,
            None => &[],
        }
    }

    /// Under which slot the worker's collection is kept.
    pub fn key(&self, worker: u32) -> u32
        ensures { result ≡ key worker self.now }
    {
        if is_each(self.settings.mode) {
            self.slot_of(worker)
        } else {
            0
        }
    }

    /// The collection with which the worker's is compared, where it stands.
    pub fn listed(&self, worker: u32) -> Option<&Listed>
        ensures { MatchOption result (listed worker self.now ≡ None) (λ l.
            listed worker self.now ≡ Some l.now) }
    {
        listed_in(&self.lists, self.key(worker))
    }

    /// The worker's collection is kept for others to be compared with, where none was.
    pub fn list(&mut self, alloc: Global, worker: u32, own: &[Text]) -> Result<(), OutOfMemory>
        ensures listed { OnOk result (self.new ≡ with_list worker (ids.List own.now) self.old) }
        ensures unchanged { OnErr result (self.new ≡ self.old) }
    {
        if self.listed(worker).is_some() {
            return Ok(());
        }
        let slot = self.key(worker);
        let ids = copy_texts(alloc, own)?;
        self.lists.push(Listed { slot, worker, ids })?;
        Ok(())
    }
}
