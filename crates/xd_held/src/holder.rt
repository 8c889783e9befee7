// What the workers of the rota hold.
ghost use Rattle.std.specs.Prelude.{◌≡◌, ◌==◌, ◌++◌, ◌∷◌, [], map, OnOk, false, if◌then◌else◌};
ghost use Rattle.xd_run.specs.Numbers.{first_of, without};
ghost use Rattle.xd_run.specs.Table.{at_seat, held_in, without_seat};
ghost use Rattle.xd_held.specs.Holders.{seat_of_holder};

use crate::held::Held;
use std::alloc::Global;
use xd_edge::OutOfMemory;

/// A worker of the rota, and the items that it holds.
#[derive(Drop)]
pub struct Holder {
    pub worker: u32,
    pub held: Held,
}

/// The first item that a worker holds.
pub fn head_in(rota: &[Holder], worker: u32) -> Option<u64>
    ensures { result ≡ first_of (held_in worker (map seat_of_holder rota.now)) }
{
    for holder in rota {
        if holder.worker == worker {
            return holder.held.first();
        }
    }
    None
}

/// The worker gets these after what it holds.
pub fn add_held(rota: &mut [Holder], worker: u32, items: &[u64]) -> Result<(), OutOfMemory>
    ensures { OnOk result (map seat_of_holder rota.new ≡ at_seat worker (λ s.
        record s { held = s.held ++ items.now }) (map seat_of_holder rota.old)) }
{
    for holder in rota.iter_mut() {
        holder.add(worker, items)?;
    }
    Ok(())
}

/// The worker holds these no more.
pub fn take_held(rota: &mut [Holder], worker: u32, items: &[u64])
    ensures { map seat_of_holder rota.new ≡ at_seat worker (λ s.
        record s { held = without items.now s.held }) (map seat_of_holder rota.old) }
{
    for holder in rota.iter_mut() {
        holder.take(worker, items);
    }
}

/// The worker leaves the rota.
pub fn leave(rota: &mut Vec<Holder>, worker: u32)
    ensures { map seat_of_holder rota.new.items ≡
        without_seat worker (map seat_of_holder rota.old.items) }
{
    rota.retain(|holder| holder.worker != worker);
}

/// The worker joins the rota at its end.
pub fn join(alloc: Global, rota: &mut Vec<Holder>, worker: u32) -> Result<(), OutOfMemory>
    ensures { OnOk result (map seat_of_holder rota.new.items ≡ map seat_of_holder rota.old.items
        ++ record { worker = worker; held = []; shut = false } ∷ []) }
{
    rota.push(Holder {
        worker,
        held: Held::new(alloc),
    })?;
    Ok(())
}

impl Holder {
    fn add(&mut self, worker: u32, items: &[u64]) -> Result<(), OutOfMemory>
        ensures { OnOk result (seat_of_holder self.new ≡
            (if self.old.worker == worker then record (seat_of_holder self.old)
            { held = self.old.held ++ items.now } else seat_of_holder self.old)) }
    {
        if self.worker == worker {
            self.held.add(items)?;
        }
        Ok(())
    }

    fn take(&mut self, worker: u32, items: &[u64])
        ensures { seat_of_holder self.new ≡
            (if self.old.worker == worker then record (seat_of_holder self.old)
            { held = without items.now self.old.held } else seat_of_holder self.old) }
    {
        if self.worker == worker {
            self.held.take(items);
        }
    }
}
