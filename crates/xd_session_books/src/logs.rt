// The logs of the workers.
ghost use Rattle.std.specs.Prelude.{◌≡◌, ℕ, ◌==◌, ◌&&◌, [], ◌++◌, take, Some, OnOk, true, if◌then◌else◌};
ghost use Rattle.xd_journal.specs.declared.news.What.TheVariants as what;
ghost use Rattle.xd_journal.specs.Kept.{most_of_one};
ghost use Rattle.xd_run.specs.Meaning.{with_news, number_of, is_of, is_open_log, any_open};
ghost use Rattle.xd_session_books.specs.Kept.{log_in, shortened, log_of_item, place_of, log_index_of, bytes_of};

use std::alloc::Global;
use std::marker::Model;
use xd_edge::{Blob, OutOfMemory};
use xd_journal::{MOST_OF_ONE, What};

/// The last log that a worker started: the number of its channel, the test that it is of, whether it is open, and the
/// first bytes of it.
#[derive(Drop)]
pub struct WorkerLog {
    pub worker: u32,
    pub number: u32,
    pub index: u32,
    pub is_open: bool,
    pub bytes: Blob,
}

/// The last log of each worker that started one.
#[derive(Drop)]
pub struct Logs {
    items: Vec<WorkerLog>,
}

impl Model for Logs {
    ghost use Rattle.std.specs.Prelude.{List};
    ghost use Rattle.xd_session_books.specs.declared.logs.WorkerLog.{WorkerLog};

    ghost Value = { List WorkerLog };

    ghost view = { λ l. l.items.items };
}

// The place of the worker's log, or the count of all.
fn place_of(logs: &[WorkerLog], worker: u32) -> usize
    ensures { result ≡ place_of worker logs.now }
{
    for i in 0..logs.len() {
        if logs[i].worker == worker {
            return i;
        }
    }
    logs.len()
}

// The bytes with the piece after them, but no more than can be asked for.
fn add_first(bytes: &mut Blob, piece: &[u8]) -> Result<(), OutOfMemory>
    ensures { OnOk result (bytes.new ≡ take most_of_one (bytes.old ++ piece.now)) }
{
    let room = (MOST_OF_ONE as usize).saturating_sub(bytes.bytes.len());
    let count = room.min(piece.len());
    bytes.bytes.extend_from_slice(&piece[..count])?;
    bytes.bytes.truncate(MOST_OF_ONE as usize);
    Ok(())
}

fn is_open_at(log: &WorkerLog, number: u32) -> bool
    ensures { result ≡ (log.now.is_open && log.now.number == number) }
{
    log.is_open && log.number == number
}

impl Logs {
    /// No log yet.
    pub fn new(alloc: Global) -> Logs
        ensures { result ≡ [] }
    {
        Logs {
            items: Vec::new(alloc),
        }
    }

    /// The number of the worker's last log, or 0.
    pub fn number_of(&self, worker: u32) -> u32
        ensures { result ≡ number_of (log_in worker self.now) }
    {
        let place = place_of(&self.items, worker);
        if place < self.items.len() {
            return self.items[place].number;
        }
        0
    }

    /// The worker's last log is of this test.
    pub fn is_of(&self, worker: u32, index: u32) -> bool
        ensures { result ≡ is_of index (log_in worker self.now) }
    {
        let place = place_of(&self.items, worker);
        if place < self.items.len() {
            return self.items[place].index == index;
        }
        false
    }

    /// The worker's last log has this number and is open.
    pub fn is_open(&self, worker: u32, number: u32) -> bool
        ensures { result ≡ is_open_log number (log_in worker self.now) }
    {
        let place = place_of(&self.items, worker);
        if place < self.items.len() {
            return is_open_at(&self.items[place], number);
        }
        false
    }

    /// The worker's last log is open.
    pub fn any_open(&self, worker: u32) -> bool
        ensures { result ≡ any_open (log_in worker self.now) }
    {
        let place = place_of(&self.items, worker);
        if place < self.items.len() {
            return self.items[place].is_open;
        }
        false
    }

    /// The test that the worker's last log is of.
    pub fn index_of(&self, worker: u32) -> Option<u32>
        ensures { result ≡ log_index_of (log_in worker self.now) }
    {
        let place = place_of(&self.items, worker);
        if place < self.items.len() {
            return Some(self.items[place].index);
        }
        None
    }

    /// The first bytes of the worker's last log.
    pub fn bytes_of(&self, worker: u32) -> &[u8]
        ensures { result.now ≡ bytes_of (log_in worker self.now) }
    {
        let place = place_of(&self.items, worker);
        if place < self.items.len() {
            return self.items[place].bytes.as_slice();
        }
        &[]
    }

    // This log is the worker's last one.
    fn put(&mut self, log: WorkerLog) -> Result<(), OutOfMemory>
        ensures { OnOk result ((v : ℕ) →
            log_in v self.new ≡ (if v == log.worker then Some
            (log_of_item log) else log_in v self.old)) }
    {
        let place = place_of(&self.items, log.worker);
        if place < self.items.len() {
            self.items[place] = log;
            return Ok(());
        }
        self.items.push(log)?;
        Ok(())
    }

    // The worker starts the log of a test, on the channel of this number.
    fn start(
        &mut self,
        alloc: Global,
        worker: u32,
        index: u32,
        number: u32,
    ) -> Result<(), OutOfMemory>
        ensures { OnOk result ((v : ℕ) →
            log_in v self.new ≡ (if v == worker then shortened
            (with_news (log_in v self.old) (what.LogStart index number)) else log_in v
            self.old)) }
    {
        self.put(WorkerLog {
            worker,
            number,
            index,
            is_open: true,
            bytes: Blob::empty(alloc),
        })?;
        Ok(())
    }

    // More bytes of the worker's last log, of which the first ones are kept.
    fn add(&mut self, worker: u32, piece: &[u8]) -> Result<(), OutOfMemory>
        ensures { OnOk result ((v number : ℕ) →
            log_in v self.new ≡ (if v == worker then shortened
            (with_news (log_in v self.old) (what.Piece number piece.now)) else log_in v
            self.old)) }
    {
        let place = place_of(&self.items, worker);
        if place < self.items.len() {
            add_first(&mut self.items[place].bytes, piece)?;
            return Ok(());
        }
        Ok(())
    }

    // The worker's last log is closed.
    fn close(&mut self, worker: u32)
        ensures { (v number : ℕ) →
            log_in v self.new ≡ (if v == worker then with_news (log_in v self.old)
            (what.LogClosed number) else log_in v self.old) }
    {
        let place = place_of(&self.items, worker);
        if place < self.items.len() {
            self.items[place].is_open = false;
        }
    }

    /// The worker's last log after its news.
    pub fn hear(&mut self, alloc: Global, worker: u32, what: &What) -> Result<(), OutOfMemory>
        ensures { OnOk result (((v : ℕ) → log_in v self.old ≡ shortened (log_in v self.old)) →
            (v : ℕ) → log_in v self.new ≡ (if v == worker then shortened
            (with_news (log_in v self.old) what.now) else log_in v self.old)) }
    {
        match what {
            What::LogStart { index, log } => self.start(alloc, worker, *index, *log)?,
            What::Piece { bytes, .. } => self.add(worker, bytes.as_slice())?,
            What::LogClosed { .. } => self.close(worker),
            _ => {}
        }
        Ok(())
    }
}
