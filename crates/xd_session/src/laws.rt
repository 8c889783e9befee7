// The laws of the sessions.
ghost use Rattle.std.specs.Prelude.{ℕ, List, []};
ghost use Rattle.xd_journal.specs.declared.news.News.{News};
ghost use Rattle.xd_journal.specs.declared.settings.Settings.{Settings};
ghost use Rattle.xd_run.specs.Proper.{IsProper};
ghost use Rattle.xd_session.specs.Bounded.{IsBounded};
ghost use Rattle.xd_session.specs.History.{IsProperRun, run_of};
ghost use Rattle.xd_session.specs.Part.{HasPart};

/// In every mode, whatever news come, what they mean are proper inputs of a run, the journal is the one that these inputs
/// make, and its state is the one after them. So whatever holds of proper runs holds of each session.
pub fn session_law()
    ensures { (settings : Settings) (taken : List News) → IsProper settings [] →
        IsProperRun settings (run_of settings taken) }
{}

/// In every mode, whatever news come, each entry of the journal keeps at most 8,192 bytes of a test's output, and all
/// together keep at most 67,108,864.
pub fn kept_law()
    ensures { (settings : Settings) (taken : List News) → IsProper settings [] →
        IsBounded (run_of settings taken).entries }
{}

/// In every mode, whatever news come, the inputs of a worker in the journal are what its news mean, in order, up to the
/// piece of news that ended it; from its start on each of these means an input, but for news of a log. Where it went down
/// for another cause than a breach, the last of them is that its link is gone.
pub fn part_law()
    ensures { (settings : Settings) (taken : List News) (worker : ℕ) → IsProper settings [] →
        HasPart settings worker taken }
{}
