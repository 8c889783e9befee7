// What is kept of a run beside where its tests stand.
ghost use Rattle.std.specs.Prelude.{◌≡◌, true};
ghost use Rattle.xd_run.specs.State.{no_one};

use std::alloc::Global;
use std::marker::Model;
use xd_journal::{RunStop, Settings};
use xd_run::{Listed, Member};

/// What the state of a run has beside where its tests stand: whoever was started, the collections that others are
/// compared with, the counts of failures and deaths, the items at which a worker went down, the first stop, and the
/// marks that the tests were shared and that nothing is left to hand out. Contracts see the books of a run in which no
/// test stands anywhere.
#[derive(Drop)]
pub struct Books {
    pub settings: Settings,
    pub members: Vec<Member>,
    pub lists: Vec<Listed>,
    pub shared: bool,
    pub failures: u32,
    pub deaths: u32,
    pub lost: Vec<u64>,
    pub stop: Option<RunStop>,
    pub shutting: bool,
}

impl Model for Books {
    ghost use Rattle.std.specs.Prelude.{[]};
    ghost use Rattle.xd_run.specs.Books.{Books};
    ghost use Rattle.xd_run.specs.Table.{fresh_table};

    ghost Value = { Books };

    ghost view = { λ b. record {
      settings = b.settings;
      members = b.members.items;
      lists = b.lists.items;
      table = fresh_table [];
      shared = b.shared;
      failures = b.failures;
      deaths = b.deaths;
      lost = b.lost.items;
      stop = b.stop;
      shutting = b.shutting;
    } };
}

impl Books {
    /// Nobody was started yet.
    pub fn new(alloc: Global, settings: Settings) -> Books
        ensures { result ≡ (no_one settings).books }
    {
        Books {
            settings,
            members: Vec::new(alloc),
            lists: Vec::new(alloc),
            shared: false,
            failures: 0,
            deaths: 0,
            lost: Vec::new(alloc),
            stop: None,
            shutting: false,
        }
    }

    pub fn settings(&self) -> Settings
        ensures { result ≡ self.now.settings }
    {
        self.settings
    }

    /// How many failures there are.
    pub fn failures(&self) -> u32
        ensures { result ≡ self.now.failures }
    {
        self.failures
    }

    /// The tests were shared.
    pub fn is_shared(&self) -> bool
        ensures { result ≡ self.now.shared }
    {
        self.shared
    }

    /// The tests are shared now.
    pub fn share(&mut self)
        ensures { self.new ≡ record self.old { shared = true } }
    {
        self.shared = true;
    }

    /// Nothing is left to hand out.
    pub fn shut(&mut self)
        ensures { self.new ≡ record self.old { shutting = true } }
    {
        self.shutting = true;
    }
}
