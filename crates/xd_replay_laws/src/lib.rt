//! What the runs of the program leave is checked.
#![tactic(auto)]

ghost use Rattle.std.specs.Prelude.{◌≡◌, ℕ, List, nat_le, true};
ghost use Rattle.xd_suite.specs.declared.test.Test.{Test};
ghost use Rattle.xd_journal.specs.declared.journal.Journal.{Journal};
ghost use Rattle.xd_journal.specs.declared.settings.Settings.{Settings};
ghost use Rattle.xd_session.specs.Stands.{CanBegin};
ghost use Rattle.xd_drive.specs.Driven.{Drove};
ghost use Rattle.xd_drive.specs.Seen.{HubScene, TurnScene};
ghost use Rattle.xd_local.specs.Local.{RoundSeen, RunsTests};
ghost use Rattle.xd_local.specs.Outside.{Reach};
ghost use Rattle.xd_dist.specs.Linked.{EndedLink, LinkedRun, LinksSeen, Setup};
ghost use Rattle.xd_replay.specs.Alone.{most_retries};
ghost use Rattle.xd_replay.specs.Checked.{IsChecked};

/// The journal of each run is checked: of a session that was driven to its end, of a run of a suite on workers, and of one
/// without workers. With workers the settings are such that a run can begin, with at most 100 retries.
pub fn checked_runs_law()
    ensures driven { (settings : Settings) (j : Journal) (old new : HubScene)
        (moments : List TurnScene) → CanBegin settings →
        nat_le settings.retries most_retries ≡ true →
        Drove settings j old new moments → IsChecked j }
    ensures linked { (setup : Setup) (j : Journal) (code : ℕ) (links : List EndedLink)
        (old new : LinksSeen) (moments : List TurnScene) → CanBegin setup.settings →
        nat_le setup.settings.retries most_retries ≡ true →
        LinkedRun setup j code links old new moments → IsChecked j }
    ensures alone { (tests : List Test) (maxfail : ℕ) (j : Journal) (old new : Reach)
        (moments : List RoundSeen) → RunsTests tests maxfail j old new moments → IsChecked j }
{}
