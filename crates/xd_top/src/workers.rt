// `SUITE -n K`: the suite is run on workers, and what is to be kept of the run is kept.
ghost use Rattle.std.specs.Prelude.{◌≡◌, ℕ, IfOk, true};
ghost use Rattle.std.specs.Str.{all_scalars};
ghost use Rattle.xd_dist.specs.Linked.{ended_links, setup_of};
ghost use Rattle.xd_edge.specs.Clock.{Ticking};
ghost use Rattle.xd_top.specs.Keeping.{KeepsAround};
ghost use Rattle.xd_top.specs.Linked.{DidLinked};
ghost use Rattle.xd_top.specs.Top.{turns_seen};
ghost use Rattle.xd_words.specs.Words.{FitsRun};

use crate::keeping::keep;
use crate::top::RunEnd;
use std::alloc::Global;
use std::sync::Wait;
use xd_crew::Crew;
use xd_dist::{LinkedSuite, run_linked};
use xd_edge::{Children, Files, OutOfMemory, Sink, Text};
use xd_link::Starter;
use xd_reader::Reader;
use xd_words::Keeps;

/// Runs the suite on workers, and keeps what is to be kept of the run. What it is not handed stands as it was.
pub fn run_on_workers<
    R: Wait,
    F: Files,
    St: Starter,
    C: Crew<Reader<St::Src>>,
    K: Children,
    O: Sink,
    E: Sink,
>(
    rt: &R,
    alloc: Global,
    suite: LinkedSuite,
    keeps: &Keeps,
    files: &mut F,
    starter: St,
    crew: C,
    children: K,
    out: &mut O,
    err: &mut E,
) -> Result<RunEnd<St, C, K, O>, OutOfMemory>
    requires { FitsRun suite.path suite.settings suite.places.items }
    ensures did { (runners : ℕ) (clock : Ticking) → IfOk result (λ e.
        KeepsAround keeps.now
        (λ own after. DidLinked (setup_of suite) e.journal own
        (ended_links St.Src.supply St.Src.is_ended St.Src.faults St.Snk.sunk St.Snk.faults
        e.links.items)
        (turns_seen O.sunk e.turns)
        (record {
          streams = record {
            files = record { held = F.held files.old; faults = F.faults files.old };
            out = record { sunk = O.sunk out.old; faults = O.faults out.old };
            err = record { sunk = E.sunk err.old; faults = E.faults err.old };
          };
          programs = record { runs = K.runs children; faults = K.faults children };
          starter = record { begun = St.begun starter; faults = St.faults starter };
          crews = record { readers = C.faults crew; runners = runners };
          clock = clock;
        })
        (record {
          streams = after;
          programs = record { runs = K.runs e.children; faults = K.faults e.children };
          starter = record { begun = St.begun e.starter; faults = St.faults e.starter };
          crews = record { readers = C.faults e.crew; runners = runners };
          clock = clock;
        }))
        e.journal e.status
        (record {
          files = record { held = F.held files.new; faults = F.faults files.new };
          out = record { sunk = O.sunk out.new; faults = O.faults out.new };
          err = record { sunk = E.sunk err.new; faults = E.faults err.new };
        })) }
{
    text_law(&suite.path);
    let end = run_linked(rt, alloc, suite, starter, crew, out)?;
    let journal = Some(end.journal);
    let status = keep(alloc, keeps, &journal, end.status, files, err)?;
    Ok(RunEnd {
        status,
        journal,
        links: end.links,
        starter: end.starter,
        crew: end.crew,
        children,
        turns: Some(end.moments),
        tests: None,
    })
}

// Each character of a text is a Unicode scalar value.
fn text_law(text: &Text)
    ensures { all_scalars text.now ≡ true }
{
    let _ = text.as_str();
}
