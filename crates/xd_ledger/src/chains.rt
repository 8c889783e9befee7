// Lists of numbers, each number linked with its neighbours.
ghost use Rattle.std.specs.Prelude.{◌≡◌, ℕ, take, drop, slice_index, ◌+◌, ◌-◌, replicate, is_ok, IfOk, OnOk, ◌<◌, ◌≤◌, ◌==◌, [], ◌∷◌, ◌++◌, length, nat_lt, true, false, Some, None, if◌then◌else◌};
ghost use Rattle.std.specs.List.{range_with_len};
ghost use Rattle.xd_run.specs.Numbers.{among, all_among, all_distinct, without, first_of};
ghost use Rattle.xd_ledger.specs.Chains.{chain_at, is_unchained, number_count, chains_of, changed, shifted, poured, part_before, part_after, final_of};

use std::alloc::{AllocError, Global};
use std::marker::Model;
use xd_edge::{Indices, OutOfMemory};

// The owner of a number that stands in no list.
const NO_CHAIN: u32 = u32::MAX;

/// Lists of the numbers below some number, each in one list at most. The places of `next` and `previous` are the
/// numbers, and after them an end for each list, which stands before its first number and after its last one: so no
/// number is without neighbours, and each call costs what it moves.
#[derive(Drop)]
pub(crate) struct Chains {
    next: Vec<u32>,
    previous: Vec<u32>,
    // The list in which a number stands.
    owner: Vec<u32>,
    // How many numbers stand in a list.
    counts: Vec<u32>,
}

impl Model for Chains {
    ghost use Rattle.xd_ledger.specs.Chains.{Lists, chain, AreChains};

    ghost Value = { Lists };

    ghost view = { λ l. record {
      next = l.next.items;
      owner = l.owner.items;
      counts = l.counts.items;
    } };

    ghost invariant = { λ l. AreChains l.next.items l.previous.items l.owner.items l.counts.items
        (chain l.next.items l.owner.items l.counts.items) };
}

// These numbers, in order, after the others.
fn add_range(list: &mut Vec<u32>, start: u32, len: u32) -> Result<(), AllocError>
    requires { start + len ≤ 1600001 }
    ensures { OnOk result (list.new.items ≡ list.old.items ++ range_with_len start len) }
{
    for i in 0..len {
        list.push(start + i)?;
    }
    Ok(())
}

// That many numbers, each in the first list.
fn all_in_first(alloc: Global, len: u32) -> Result<Vec<u32>, AllocError>
    ensures { IfOk result (λ v. v.items ≡ replicate len 0) }
{
    let mut owner = Vec::with_capacity(alloc, len as usize)?;
    for i in 0..len {
        owner.push(0)?;
    }
    Ok(owner)
}

impl Chains {
    // One list with `items` numbers, in order.
    fn one(alloc: Global, items: u32) -> Result<Chains, AllocError>
        requires { items ≤ 1600000 }
        ensures first { IfOk result (λ l. chain_at l 0 ≡ range_with_len 0 items) }
        ensures items { IfOk result (λ l. number_count l ≡ items) }
        ensures chains { IfOk result (λ l. chains_of l ≡ 1) }
        ensures others { IfOk result (λ l. (j : ℕ) → (0 == j) ≡ false → chain_at l j ≡ []) }
    {
        let mut next = Vec::with_capacity(alloc, items as usize + 1)?;
        add_range(&mut next, 1, items)?;
        next.push(0)?;
        let mut previous = Vec::with_capacity(alloc, items as usize + 1)?;
        previous.push(items)?;
        add_range(&mut previous, 0, items)?;
        let owner = all_in_first(alloc, items)?;
        let counts = vec![in alloc; items]?;
        Ok(Chains {
            next,
            previous,
            owner,
            counts,
        })
    }

    // `chains` lists: the first has `items` numbers, in order, and the others are empty.
    pub(crate) fn new(alloc: Global, items: u32, chains: u32) -> Result<Chains, AllocError>
        requires few { items ≤ 1600000 }
        requires some { (1 ≤ chains) × (chains ≤ 4000000000) }
        ensures lists { IfOk result (λ l. (j : ℕ) →
            chain_at l j ≡ changed 0 (range_with_len 0 items) (λ _. []) j) }
        ensures chains { IfOk result (λ l. chains_of l ≡ chains) }
    {
        let mut made = Chains::one(alloc, items)?;
        for i in 1..chains {
            made.add()?;
        }
        Ok(made)
    }

    // One list more, an empty one.
    pub(crate) fn add(&mut self) -> Result<(), AllocError>
        requires { chains_of self.old < 4000000000 }
        ensures lists { (j : ℕ) → chain_at self.new j ≡ chain_at self.old j }
        ensures items { number_count self.new ≡ number_count self.old }
        ensures chains { chains_of
            self.new ≡ (if is_ok result then chains_of self.old + 1 else chains_of self.old) }
    {
        self.next.reserve(1)?;
        self.previous.reserve(1)?;
        self.counts.reserve(1)?;
        let end = self.next.len() as u32;
        self.next.push_reserved(end);
        self.previous.push_reserved(end);
        self.counts.push_reserved(0);
        Ok(())
    }

    // The number leaves the list in which it stands.
    pub(crate) fn take(&mut self, chain: u32, item: u32)
        requires known { chain < chains_of self.old }
        requires within { among item (chain_at self.old chain) ≡ true }
        ensures lists { (j : ℕ) →
            chain_at self.new j ≡ changed chain (without (item ∷ []) (chain_at self.old chain))
            (chain_at self.old) j }
        ensures free { is_unchained item self.new ≡ true }
        ensures items { number_count self.new ≡ number_count self.old }
        ensures chains { chains_of self.new ≡ chains_of self.old }
        ensures below { item < number_count self.old }
    {
        let next = self.next[item as usize];
        let previous = self.previous[item as usize];
        self.next[previous as usize] = next;
        self.previous[next as usize] = previous;
        self.owner[item as usize] = NO_CHAIN;
        self.counts[chain as usize] -= 1;
    }

    // The number, which stands in no list, goes to the end of one.
    fn put(&mut self, chain: u32, item: u32)
        requires known { chain < chains_of self.old }
        requires below { item < number_count self.old }
        requires free { is_unchained item self.old ≡ true }
        ensures lists { (j : ℕ) →
            chain_at self.new j ≡ changed chain (chain_at self.old chain ++ item ∷ [])
            (chain_at self.old) j }
        ensures items { number_count self.new ≡ number_count self.old }
        ensures chains { chains_of self.new ≡ chains_of self.old }
    {
        let end = self.owner.len() + chain as usize;
        let last = self.previous[end];
        self.next[last as usize] = item;
        self.next[item as usize] = end as u32;
        self.previous[item as usize] = last;
        self.previous[end] = item;
        self.owner[item as usize] = chain;
        self.counts[chain as usize] += 1;
    }

    // The number, which stands in no list, goes to the front of one.
    pub(crate) fn put_first(&mut self, chain: u32, item: u32)
        requires known { chain < chains_of self.old }
        requires below { item < number_count self.old }
        requires free { is_unchained item self.old ≡ true }
        ensures lists { (j : ℕ) →
            chain_at self.new j ≡ changed chain (item ∷ chain_at self.old chain)
            (chain_at self.old) j }
        ensures items { number_count self.new ≡ number_count self.old }
        ensures chains { chains_of self.new ≡ chains_of self.old }
    {
        let end = self.owner.len() + chain as usize;
        let first = self.next[end];
        self.next[end] = item;
        self.next[item as usize] = first;
        self.previous[item as usize] = end as u32;
        self.previous[first as usize] = item;
        self.owner[item as usize] = chain;
        self.counts[chain as usize] += 1;
    }

    // The number goes from its list to the end of another.
    fn shift(&mut self, from: u32, to: u32, item: u32)
        requires known { (from < chains_of self.old) × (to < chains_of self.old) }
        requires within { among item (chain_at self.old from) ≡ true }
        requires apart { (from == to) ≡ false }
        ensures lists { (j : ℕ) →
            chain_at self.new j ≡ shifted from to (item ∷ []) (chain_at self.old) j }
        ensures items { number_count self.new ≡ number_count self.old }
        ensures chains { chains_of self.new ≡ chains_of self.old }
    {
        self.take(from, item);
        self.put(to, item);
    }

    // The numbers, which are distinct, go from their list to the end of another, in this order.
    pub(crate) fn shift_all(&mut self, from: u32, to: u32, items: &[u32])
        requires known { (from < chains_of self.old) × (to < chains_of self.old) }
        requires within { all_among items.now (chain_at self.old from) ≡ true }
        requires distinct { all_distinct items.now ≡ true }
        requires apart { (from == to) ≡ false }
        ensures lists { (j : ℕ) →
            chain_at self.new j ≡ shifted from to items.now (chain_at self.old) j }
        ensures items { number_count self.new ≡ number_count self.old }
        ensures chains { chains_of self.new ≡ chains_of self.old }
    {
        for i in 0..items.len() {
            self.shift(from, to, items[i]);
        }
    }

    // How many numbers stand in the list.
    pub(crate) fn len(&self, chain: u32) -> u32
        requires { chain < chains_of self.now }
        ensures { result ≡ length (chain_at self.now chain) }
    {
        self.counts[chain as usize]
    }

    // How many lists there are.
    pub(crate) fn chains(&self) -> u32
        ensures count { result ≡ chains_of self.now }
        ensures few { result ≤ 4000000000 }
        ensures after_last { chain_at self.now (chains_of self.now) ≡ [] }
    {
        self.counts.len() as u32
    }

    // The number stands in the list.
    pub(crate) fn has(&self, chain: u32, item: u32) -> bool
        requires { chain < chains_of self.now }
        ensures { result ≡ among item (chain_at self.now chain) }
    {
        (item as usize) < self.owner.len() && self.owner[item as usize] == chain
    }

    // The number at this place, where it is no list's end.
    fn item_at(&self, place: u32) -> Option<u32>
        ensures { result ≡ (if nat_lt place (number_count self.now) then Some place else None) }
    {
        if (place as usize) < self.owner.len() {
            Some(place)
        } else {
            None
        }
    }

    // The first number of the list.
    pub(crate) fn first(&self, chain: u32) -> Option<u32>
        requires { chain < chains_of self.now }
        ensures { result ≡ first_of (chain_at self.now chain) }
    {
        self.item_at(self.next[self.owner.len() + chain as usize])
    }

    // The last number of the list.
    pub(crate) fn last(&self, chain: u32) -> Option<u32>
        requires { chain < chains_of self.now }
        ensures { result ≡ final_of (chain_at self.now chain) }
    {
        self.item_at(self.previous[self.owner.len() + chain as usize])
    }

    // The number after this one in its list.
    pub(crate) fn next(&self, item: u32) -> Option<u32>
        ensures { (k : ℕ) → k < chains_of self.now → among item (chain_at self.now k) ≡ true →
            result ≡ first_of (part_after item (chain_at self.now k)) }
    {
        if (item as usize) < self.owner.len() {
            self.item_at(self.next[item as usize])
        } else {
            None
        }
    }

    // The number before this one in its list.
    pub(crate) fn previous(&self, item: u32) -> Option<u32>
        ensures { (k : ℕ) → k < chains_of self.now → among item (chain_at self.now k) ≡ true →
            result ≡ final_of (part_before item (chain_at self.now k)) }
    {
        if (item as usize) < self.owner.len() {
            self.item_at(self.previous[item as usize])
        } else {
            None
        }
    }

    // The first `count` numbers of the list, which has as many.
    pub(crate) fn copy_first(
        &self,
        alloc: Global,
        chain: u32,
        count: u32,
    ) -> Result<Indices, OutOfMemory>
        requires known { chain < chains_of self.now }
        requires enough { count ≤ length (chain_at self.now chain) }
        ensures { IfOk result (λ v. v ≡ take count (chain_at self.now chain)) }
    {
        let mut items = Vec::with_capacity(alloc, count as usize)?;
        let mut place = self.next[self.owner.len() + chain as usize];
        for i in 0..count {
            items.push(place)?;
            place = self.next[place as usize];
        }
        Ok(Indices { items })
    }

    // The last `count` numbers of the list, which has as many.
    pub(crate) fn copy_last(
        &self,
        alloc: Global,
        chain: u32,
        count: u32,
    ) -> Result<Indices, OutOfMemory>
        requires known { chain < chains_of self.now }
        requires enough { count ≤ length (chain_at self.now chain) }
        ensures { IfOk result (λ v.
            v ≡ drop (length (chain_at self.now chain) - count) (chain_at self.now chain)) }
    {
        let mut items = Vec::with_capacity(alloc, count as usize)?;
        let mut place = self.previous[self.owner.len() + chain as usize];
        for i in 0..count {
            items.push(place)?;
            place = self.previous[place as usize];
        }
        items.reverse();
        Ok(Indices { items })
    }

    // The number at this place of the list, counted from 0. Costs a walk to it.
    pub(crate) fn at(&self, chain: u32, place: u32) -> u32
        requires known { chain < chains_of self.now }
        requires within { place < length (chain_at self.now chain) }
        ensures { result ≡ slice_index (chain_at self.now chain) place }
    {
        let mut item = self.next[self.owner.len() + chain as usize];
        for i in 0..place {
            item = self.next[item as usize];
        }
        item
    }

    // The first number of the list, which is not empty, goes to the end of another.
    fn shift_first(&mut self, from: u32, to: u32)
        requires known { (from < chains_of self.old) × (to < chains_of self.old) }
        requires some { 0 < length (chain_at self.old from) }
        requires apart { (from == to) ≡ false }
        ensures lists { (j : ℕ) → chain_at self.new j ≡ poured 1 from to (chain_at self.old) j }
        ensures items { number_count self.new ≡ number_count self.old }
        ensures chains { chains_of self.new ≡ chains_of self.old }
    {
        let item = self.next[self.owner.len() + from as usize];
        self.shift(from, to, item);
    }

    // All numbers of the list go to the end of another, in their order.
    pub(crate) fn pour(&mut self, from: u32, to: u32)
        requires known { (from < chains_of self.old) × (to < chains_of self.old) }
        requires apart { (from == to) ≡ false }
        ensures lists { (j : ℕ) →
            chain_at self.new j ≡ poured (length (chain_at self.old from)) from to
            (chain_at self.old) j }
        ensures items { number_count self.new ≡ number_count self.old }
        ensures chains { chains_of self.new ≡ chains_of self.old }
    {
        for i in 0..self.len(from) {
            self.shift_first(from, to);
        }
    }
}
