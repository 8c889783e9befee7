// Collections: whether one is in order, and how it compares with an earlier one.
ghost use Rattle.std.specs.Prelude.{◌≡◌, ◌≤◌, ◌==◌, ◌&&◌, length, nat_le, IfOk, OnOk, true, false};
ghost use Rattle.std.specs.List.{list_all};
ghost use Rattle.xd_edge.specs.Limits.{most_tests};
ghost use Rattle.xd_journal.specs.declared.entry.Ids.TheVariants as ids;
ghost use Rattle.xd_run.specs.Collections.{listed, with_list};
ghost use Rattle.xd_edge.specs.Ids.{is_id};
ghost use Rattle.xd_run.specs.Proper.{no_text_twice};
ghost use Rattle.xd_session_books.specs.Compared.{compared, comparison, ids_to_list, place_in_lists};
ghost use Rattle.xd_session_books.specs.Books.{books_of};

use crate::run_books::RunBooks;
use std::alloc::Global;
use std::collections::BTreeSet;
use xd_books::differ_at;
use xd_edge::{MAX_TESTS, OutOfMemory, Text, Texts, is_id};
use xd_journal::Ids;
use xd_run::Listed;

/// How a collection compares with the one that it is compared with: there is none, they are equal, or they differ at a
/// place.
#[derive(Clone, Copy)]
pub enum Comparison {
    First,
    Same,
    Differs { other: u32, place: u32 },
}

/// A collection as it goes into the journal, and how it compares.
#[derive(Drop)]
pub struct TakenList {
    pub ids: Ids,
    pub comparison: Comparison,
}

fn are_all_ids(texts: &[Text]) -> bool
    ensures { result ≡ list_all is_id texts.now }
{
    texts.iter().all(|text| is_id(text.as_str()))
}

// No text stands twice. The cost of a text grows with the logarithm of their number.
fn are_distinct(alloc: Global, texts: &[Text]) -> Result<bool, OutOfMemory>
    ensures { IfOk result (λ b. b ≡ no_text_twice texts.now) }
{
    let mut seen = BTreeSet::new(alloc);
    for text in texts {
        if !seen.insert(text.as_str())? {
            return Ok(false);
        }
    }
    Ok(true)
}

/// The collection is within its bounds.
pub fn are_in_order(alloc: Global, ids: &Texts) -> Result<bool, OutOfMemory>
    ensures { IfOk result (λ b.
        b ≡ (nat_le (length ids.now) most_tests && list_all is_id ids.now
        && no_text_twice ids.now)) }
{
    if ids.items.len() > MAX_TESTS as usize || !are_all_ids(&ids.items) {
        return Ok(false);
    }
    let distinct = are_distinct(alloc, &ids.items)?;
    Ok(distinct)
}

/// The place of the collection that is kept for the slot, or the count of all.
pub fn place_of(lists: &[Listed], slot: u32) -> usize
    ensures { result ≡ place_in_lists slot lists.now }
{
    for i in 0..lists.len() {
        if lists[i].slot == slot {
            return i;
        }
    }
    lists.len()
}

fn judged(other: u32, place: Option<u32>) -> Comparison
    ensures { result ≡ compared other place }
{
    match place {
        Some(place) => Comparison::Differs { other, place },
        None => Comparison::Same,
    }
}

fn given(comparison: Comparison, own: Texts) -> Ids
    ensures { result ≡ ids_to_list comparison own }
{
    match comparison {
        Comparison::Same => Ids::Same,
        Comparison::First | Comparison::Differs { .. } => Ids::List(own),
    }
}

impl RunBooks {
    // How the worker's collection compares.
    fn compare(&self, worker: u32, own: &[Text]) -> Result<Comparison, OutOfMemory>
        ensures { IfOk result (λ c. c ≡ comparison own.now (listed worker (books_of self.now))) }
    {
        let Some(first) = self.kept.listed(worker) else {
            return Ok(Comparison::First);
        };
        let place = differ_at(&first.ids.items, own)?;
        Ok(judged(first.worker, place))
    }

    // The worker's collection is kept for others to be compared with, where it is the first.
    fn list(&mut self, alloc: Global, worker: u32, own: &[Text]) -> Result<(), OutOfMemory>
        requires few { length own.now ≤ most_tests }
        requires ordered { (list_all is_id own.now && no_text_twice own.now) ≡ true }
        ensures { OnOk result (books_of self.new ≡ with_list worker (ids.List own.now)
            (books_of self.old)) }
    {
        self.kept.list(alloc, worker, own)?;
        Ok(())
    }

    /// The worker's collection is compared, and kept where it is the first.
    pub fn take_list(
        &mut self,
        alloc: Global,
        worker: u32,
        own: Texts,
    ) -> Result<TakenList, OutOfMemory>
        requires few { length own ≤ most_tests }
        requires ordered { (list_all is_id own && no_text_twice own) ≡ true }
        ensures comparison { IfOk result (λ t.
            t.comparison ≡ comparison own (listed worker (books_of self.old))) }
        ensures ids { IfOk result (λ t.
            t.ids ≡ ids_to_list (comparison own (listed worker (books_of self.old))) own) }
        ensures books { OnOk result
            (books_of self.new ≡ with_list worker
            (ids_to_list (comparison own (listed worker (books_of self.old))) own)
            (books_of self.old)) }
    {
        let comparison = self.compare(worker, &own.items)?;
        self.list(alloc, worker, &own.items)?;
        Ok(TakenList {
            ids: given(comparison, own),
            comparison,
        })
    }
}
