// What the ledger tells.
ghost use Rattle.std.specs.Prelude.{nat_lt, ◌≡◌, ◌<◌, ◌≤◌, ◌++◌, ℕ, length, slice_index, true, IfOk};
ghost use Rattle.std.specs.List.{list_all};
ghost use Rattle.xd_ledger.specs.Calls.{last_of};
ghost use Rattle.xd_ledger.specs.Chains.{chain_at, chains_of, part_before, part_after, final_of};
ghost use Rattle.xd_run.specs.Numbers.{among, first_of};
ghost use Rattle.xd_run.specs.Table.{has_joined, held, held_by_all, in_rota, seat_shut, workers_of};

use crate::Ledger;
use crate::chains::Chains;
use crate::ledger::{POOL, chain_of, place_of};
use crate::post::Post;
use std::alloc::Global;
use xd_edge::{Indices, OutOfMemory};

// Each post's list has fewer numbers than that.
fn all_below(chains: &Chains, rota: &[Post], count: u32) -> bool
    requires { list_all (λ q. nat_lt q.chain (chains_of chains.now)) rota.now ≡ true }
    ensures { result ≡ list_all
        (λ q. nat_lt (length (chain_at chains.now q.chain)) count) rota.now }
{
    for i in 0..rota.len() {
        if chains.len(rota[i].chain) >= count {
            return false;
        }
    }
    true
}

impl Ledger {
    /// The worker joined the rota, also where it has left it.
    pub fn has_joined(&self, worker: u32) -> bool
        ensures { result ≡ has_joined worker self.now }
    {
        self.who_joined.has(worker)
    }

    /// The worker is in the rota.
    pub fn in_rota(&self, worker: u32) -> bool
        ensures { result ≡ in_rota worker self.now }
    {
        chain_of(&self.rota, worker) != POOL
    }

    /// The worker of the rota was told to shut down.
    pub fn is_shut(&self, worker: u32) -> bool
        requires { in_rota worker self.now ≡ true }
        ensures { result ≡ seat_shut worker self.now }
    {
        self.rota[place_of(&self.rota, worker)].shut
    }

    /// How many items the worker of the rota holds.
    pub fn held_len(&self, worker: u32) -> u32
        requires { in_rota worker self.now ≡ true }
        ensures { result ≡ length (held worker self.now) }
    {
        self.chains.len(chain_of(&self.rota, worker))
    }

    /// The first item that the worker of the rota holds.
    pub fn head(&self, worker: u32) -> Option<u32>
        requires { in_rota worker self.now ≡ true }
        ensures { result ≡ first_of (held worker self.now) }
    {
        self.chains.first(chain_of(&self.rota, worker))
    }

    /// The item that the worker of the rota holds at this place, counted from 0. Costs a walk to it.
    pub fn held_at(&self, worker: u32, place: u32) -> u32
        requires seated { in_rota worker self.now ≡ true }
        requires within { place < length (held worker self.now) }
        ensures { result ≡ slice_index (held worker self.now) place }
    {
        self.chains.at(chain_of(&self.rota, worker), place)
    }

    /// The worker of the rota holds the item.
    pub fn holds(&self, worker: u32, item: u32) -> bool
        requires { in_rota worker self.now ≡ true }
        ensures { result ≡ among item (held worker self.now) }
    {
        self.chains.has(chain_of(&self.rota, worker), item)
    }

    /// The item is in the pool.
    pub fn in_pool(&self, item: u32) -> bool
        ensures { result ≡ among item self.now.pool }
    {
        self.chains.has(POOL, item)
    }

    /// How many items are in the pool.
    pub fn pool_len(&self) -> u32
        ensures { result ≡ length self.now.pool }
    {
        self.chains.len(POOL)
    }

    /// How many workers are in the rota.
    pub fn rota_len(&self) -> u32
        ensures { result ≡ length (workers_of self.now) }
    {
        self.rota.len() as u32
    }

    /// The worker at this place of the rota, counted from 0.
    pub fn rota_at(&self, place: u32) -> u32
        requires { place < length (workers_of self.now) }
        ensures { result ≡ slice_index (workers_of self.now) place }
    {
        self.rota[place as usize].worker
    }

    /// Each worker of the rota holds fewer items than that.
    pub fn all_below(&self, count: u32) -> bool
        ensures { result ≡ list_all (λ s. nat_lt (length s.held) count) self.now.rota }
    {
        all_below(&self.chains, &self.rota, count)
    }

    /// The first item of the pool.
    pub fn first_pool(&self) -> Option<u32>
        ensures { result ≡ first_of self.now.pool }
    {
        self.chains.first(POOL)
    }

    /// The last item of the pool.
    pub fn last_pool(&self) -> Option<u32>
        ensures { result ≡ final_of self.now.pool }
    {
        self.chains.last(POOL)
    }

    /// The last item that the worker of the rota holds.
    pub fn last_held(&self, worker: u32) -> Option<u32>
        requires { in_rota worker self.now ≡ true }
        ensures { result ≡ final_of (held worker self.now) }
    {
        self.chains.last(chain_of(&self.rota, worker))
    }

    /// The item after this one in the list in which it stands: the pool, or what a worker of the rota holds.
    pub fn next_item(&self, item: u32) -> Option<u32>
        requires stands { among item (self.now.pool ++ held_by_all self.now.rota) ≡ true }
        ensures pool { among item self.now.pool ≡ true →
            result ≡ first_of (part_after item self.now.pool) }
        ensures held { (w : ℕ) → in_rota w self.now ≡ true → among item (held w self.now) ≡ true →
            result ≡ first_of (part_after item (held w self.now)) }
    {
        self.chains.next(item)
    }

    /// The item before this one in the list in which it stands: the pool, or what a worker of the rota holds.
    pub fn previous_item(&self, item: u32) -> Option<u32>
        requires stands { among item (self.now.pool ++ held_by_all self.now.rota) ≡ true }
        ensures pool { among item self.now.pool ≡ true →
            result ≡ final_of (part_before item self.now.pool) }
        ensures held { (w : ℕ) → in_rota w self.now ≡ true → among item (held w self.now) ≡ true →
            result ≡ final_of (part_before item (held w self.now)) }
    {
        self.chains.previous(item)
    }

    /// The last `count` items that the worker of the rota holds, in their order. It holds as many. Costs what it gives.
    pub fn last_items(&self, alloc: Global, worker: u32, count: u32) -> Result<Indices, OutOfMemory>
        requires seated { in_rota worker self.now ≡ true }
        requires enough { count ≤ length (held worker self.now) }
        ensures { IfOk result (λ r. r ≡ last_of count (held worker self.now)) }
    {
        let items = self
            .chains
            .copy_last(alloc, chain_of(&self.rota, worker), count)?;
        Ok(items)
    }
}
