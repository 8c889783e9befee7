// What is proved of a run and of what is printed of it later. The call does nothing, and its contract is the law.
ghost use Rattle.std.specs.Prelude.{ℕ, List, IfSome};
ghost use Rattle.xd_journal.specs.declared.journal.Journal.{Journal};
ghost use Rattle.xd_replay.specs.Checked.{IsChecked};
ghost use Rattle.xd_top.specs.Kept.{GivesBack, KeepsRun, ReplaysCalmly};
ghost use Rattle.xd_top.specs.Outside.{Outside};
ghost use Rattle.xd_top.specs.Replay.{PrintsAgain};
ghost use Rattle.xd_top.specs.Top.{Did, End};
ghost use Rattle.xd_words.specs.Words.{Fits};
ghost use Rattle.xd_words.specs.declared.plan.Plan.{Plan};

/// Each journal that a call hands back is one that a run can have left. Where a run was kept in a file, and the file
/// tells later what was written to it then, `replay` prints the report of that run.
pub fn replay_law()
    ensures checked { (plan : Plan) (end : End) (old new : Outside) →
        Fits plan → Did plan end old new → IfSome end.journal IsChecked }
    ensures replayed { (path : List ℕ) (j : Journal) (plan : Plan) (end again : End)
        (old new later after : Outside) →
        KeepsRun path j plan end old new →
        GivesBack path new.streams.files.held later.streams.files.held →
        ReplaysCalmly path again later after →
        PrintsAgain j again.status later.streams.out.sunk after.streams.out.sunk }
{}
