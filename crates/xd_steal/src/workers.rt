// Which workers are idle, and which is asked for tests.
ghost use Rattle.std.specs.Prelude.{◌≡◌, true, not, ◌&&◌, ◌==◌, nat_lt, length, IfOk, option_map, if◌then◌else◌};
ghost use Rattle.xd_run.specs.Numbers.{all_distinct};
ghost use Rattle.xd_run.specs.Table.{held, in_rota, seat_shut, workers_of};
ghost use Rattle.xd_run.specs.Worksteal.{idle, open_seats, most, victim};
ghost use Rattle.xd_run.specs.Turn.{enough};

use std::alloc::Global;
use xd_edge::{Indices, OutOfMemory};
use xd_ledger::{ENOUGH, Ledger};

// The worker may be told and is idle.
fn is_idle(worker: u32, ledger: &Ledger) -> bool
    requires { in_rota worker ledger.now ≡ true }
    ensures { result ≡ (not (seat_shut worker ledger.now) && nat_lt
        (length (held worker ledger.now)) enough) }
{
    !ledger.is_shut(worker) && ledger.held_len(worker) < ENOUGH
}

// The idle workers that may be told, in rota order.
pub(crate) fn idle(alloc: Global, ledger: &Ledger) -> Result<Indices, OutOfMemory>
    requires { all_distinct (workers_of ledger.now) ≡ true }
    ensures { IfOk result (λ r. r ≡ idle ledger.now) }
{
    let mut items = Vec::new(alloc);
    for place in 0..ledger.rota_len() {
        let worker = ledger.rota_at(place);
        if is_idle(worker, ledger) {
            items.push(worker)?;
        }
    }
    Ok(Indices { items })
}

// How many tests the worker holds, or 0 where it may not be told.
fn held_open(worker: u32, ledger: &Ledger) -> u32
    requires { in_rota worker ledger.now ≡ true }
    ensures { result ≡
        (if seat_shut worker ledger.now then 0 else length (held worker ledger.now)) }
{
    if ledger.is_shut(worker) {
        return 0;
    }
    ledger.held_len(worker)
}

// The most that a worker holds that may be told.
fn most(ledger: &Ledger) -> u32
    requires { all_distinct (workers_of ledger.now) ≡ true }
    ensures { result ≡ most (open_seats ledger.now) }
{
    let mut most = 0;
    for place in 0..ledger.rota_len() {
        let worker = ledger.rota_at(place);
        most = held_open(worker, ledger).max(most);
    }
    most
}

// The worker may be told and holds that many.
fn holds_open(worker: u32, count: u32, ledger: &Ledger) -> bool
    requires { in_rota worker ledger.now ≡ true }
    ensures { result ≡ (not (seat_shut worker ledger.now) &&
        (length (held worker ledger.now) == count)) }
{
    !ledger.is_shut(worker) && ledger.held_len(worker) == count
}

// The worker that is asked: the first of those that may be told and hold most.
pub(crate) fn victim(ledger: &Ledger) -> Option<u32>
    requires { all_distinct (workers_of ledger.now) ≡ true }
    ensures { result ≡ option_map (λ s. s.worker) (victim ledger.now) }
{
    let count = most(ledger);
    for place in 0..ledger.rota_len() {
        let worker = ledger.rota_at(place);
        if holds_open(worker, count, ledger) {
            return Some(worker);
        }
    }
    None
}
