// Moments that are listed.
ghost use Rattle.std.specs.Prelude.{◌≡◌, ◌≤◌, Some, drop};
ghost use Rattle.xd_edge.specs.Clock.{next_moment};

use xd_edge::Clock;

/// Moments that were listed, then the last of them again and again, or 0 where none was. One below the one before it
/// is given as the one before it.
#[derive(Drop)]
pub struct MemClock {
    pub moments: Vec<u64>,
    pub next: usize,
    pub last: u64,
}

impl MemClock {
    /// A clock that gave no moment yet.
    pub fn new(moments: Vec<u64>) -> MemClock
        ensures moments { result.moments ≡ moments }
        ensures next { result.next ≡ 0 }
        ensures last { result.last ≡ 0 }
    {
        MemClock {
            moments,
            next: 0,
            last: 0,
        }
    }
}

impl Clock for MemClock {
    ghost moment = { λ s. s.last };

    ghost coming = { λ s. Some (drop s.next s.moments.items) };

    fn now(&mut self) -> u64
        ensures later { self.old.last ≤ result }
        ensures last { self.new.last ≡ result }
        ensures told { result ≡ next_moment self.old.last
            (drop self.old.next self.old.moments.items) }
        ensures next { drop self.new.next self.new.moments.items ≡ drop 1
            (drop self.old.next self.old.moments.items) }
        ensures moments { self.new.moments ≡ self.old.moments }
    {
        if let Some(&moment) = self.moments.get(self.next) {
            self.next += 1;
            self.last = self.last.max(moment);
        }
        self.last
    }
}
