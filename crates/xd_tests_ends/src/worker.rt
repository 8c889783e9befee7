// A worker: the function `run_tests` by itself, with what is on the way to it and from it. Orders and news are values
// here, of which no messages are made.
ghost use Rattle.std.specs.Prelude.{◌<◌, ◌^◌, IfOk, length};
ghost use Rattle.xd_worker_tests.specs.Turns.{CanTake};

use std::alloc::Global;
use std::mem;
use std::test::Fail;
use xd_commands::Order;
use xd_edge::{OutOfMemory, Text, Texts, copy_indices};
use xd_journal::{Entry, Outcome, What};
use xd_worker_tests::{Ask, Input, RunTests};

/// A worker whose suite has ten tests. The orders on the way to it are those of the journal that it has not read.
#[derive(Drop)]
pub struct Worker {
    /// Counted from 0 in the order of the starts.
    pub number: u32,
    core: RunTests,
    read: usize,
    news: Vec<What>,
}

fn ten_ids(alloc: Global) -> Result<Texts, Fail>
    ensures { IfOk result (λ ids. length ids < 2 ^ 32) }
{
    let mut items = Vec::new(alloc);
    for id in "0 1 2 3 4 5 6 7 8 9".split(' ') {
        items.push(Text::of(alloc, id)?)?;
    }
    if 10 < items.len() {
        return Err(Fail::from("ten ids"));
    }
    Ok(Texts { items })
}

// What an entry of the journal orders this worker to do, if it does.
fn order_to(alloc: Global, number: u32, entry: &Entry) -> Result<Option<Order>, OutOfMemory> {
    let order = match entry {
        Entry::Run { worker, indices } if *worker == number => {
            Order::RunTests(copy_indices(alloc, &indices.items)?)
        }
        Entry::Steal { worker, indices } if *worker == number => {
            Order::Steal(copy_indices(alloc, &indices.items)?)
        }
        Entry::Shutdown { worker } if *worker == number => Order::Shutdown,
        _ => return Ok(None),
    };
    Ok(Some(order))
}

// What the controller hears of what a worker says.
fn news_of(ask: Ask) -> What {
    match ask {
        Ask::Tell(what) => what,
        Ask::Piece { log, bytes } => What::Piece { log, bytes },
        Ask::CloseLog { log } => What::LogClosed { log },
        Ask::End(text) => What::Closed(text),
    }
}

impl Worker {
    /// A worker that is ready and has collected, which the controller has not heard.
    pub fn new(alloc: Global, number: u32) -> Result<Worker, Fail> {
        let mut news = Vec::new(alloc);
        news.push(What::Ready)?;
        let mut worker = Worker {
            number,
            core: RunTests::new(alloc),
            read: 0,
            news,
        };
        let ids = ten_ids(alloc)?;
        worker.step(Input::Suite(ids))?;
        Ok(worker)
    }

    // What the function asks for is on the way. The worker's table of channels has room.
    fn step(&mut self, input: Input) -> Result<(), OutOfMemory>
        requires { CanTake input }
    {
        let acts = self.core.step(input, true)?;
        for ask in acts.asks {
            self.news.push(news_of(ask))?;
        }
        Ok(())
    }

    /// The next order of this journal comes to the worker.
    pub fn take_order(&mut self, alloc: Global, entries: &[Entry]) -> Result<(), OutOfMemory> {
        for place in self.read..entries.len() {
            self.read = place + 1;
            if let Some(order) = order_to(alloc, self.number, &entries[place])? {
                return self.step(Input::Command(Some(order)));
            }
        }
        Ok(())
    }

    /// The program of the test that runs ends.
    pub fn end_test(&mut self) -> Result<(), OutOfMemory> {
        let outcome = Outcome::Passed;
        self.step(Input::Done { outcome, ms: 1 })
    }

    /// All that the worker said and nobody heard.
    pub fn give_news(&mut self, alloc: Global) -> Vec<What> {
        mem::replace(&mut self.news, Vec::new(alloc))
    }

    /// The test that runs.
    pub fn runs(&self) -> Option<u32> {
        self.core.runs()
    }
}
