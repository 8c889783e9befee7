// The laws of checked journals.
ghost use Rattle.std.specs.Prelude.{ℕ, ◌≡◌, ◌++◌, ◌∷◌, [], Bool, true, nat_le, List};
ghost use Rattle.xd_journal.specs.declared.entry.Entry.TheVariants.{Over};
ghost use Rattle.xd_journal.specs.declared.journal.Journal.{Journal};
ghost use Rattle.xd_journal.specs.declared.news.News.{News};
ghost use Rattle.xd_journal.specs.declared.settings.Settings.{Settings};
ghost use Rattle.xd_journal.specs.Local.{TestResult, local_entries};
ghost use Rattle.xd_run.specs.Ending.{ending, may_close, stop_of};
ghost use Rattle.xd_run.specs.Legal.{IsLegal};
ghost use Rattle.xd_session.specs.History.{run_of};
ghost use Rattle.xd_session.specs.Stands.{CanBegin};
ghost use Rattle.xd_replay.specs.Alone.{AreAlone, all_kept, most_retries};
ghost use Rattle.xd_replay.specs.Checked.{CanBeLeft, IsChecked};
ghost use Rattle.xd_replay.specs.Failed.{AreFailedLines, failed_ids};
ghost use Rattle.xd_replay.specs.Verdict.{IsVerdict};
ghost use Rattle.xd_replay.specs.declared.checking.Verdict.{Verdict};

/// What a run leaves is checked. With workers: the journal of whatever news, with its end. Without workers: each legal
/// journal that keeps no more of the output of its tests than the limits allow.
pub fn checked_law()
    ensures workers { (settings : Settings) (taken : List News) (out_failed : Bool) →
        CanBegin settings → nat_le settings.retries most_retries ≡ true →
        may_close out_failed (run_of settings taken).state.books ≡ true →
        CanBeLeft settings ((run_of settings taken).entries
        ++ ending out_failed (run_of settings taken).state.books) }
    ensures alone { (j : Journal) (ids : List (List ℕ)) (results : List TestResult) →
        AreAlone j.settings → IsLegal j →
        j.entries.items ≡ local_entries ids results ++ Over (stop_of j) ∷ [] →
        all_kept 0 results ≡ true → IsChecked j }
{}

/// Of a journal one thing is found: it is checked, or it stops being such at one place.
pub fn verdict_law()
    ensures { (v w : Verdict) (j : Journal) → IsVerdict v j → IsVerdict w j → v ≡ w }
{}

/// The ids of failed tests are those that the lines FAILED and CRASHED of the report give, each once: each id has such a
/// line, and each such line one of the ids.
pub fn failed_law()
    ensures { (j : Journal) → AreFailedLines j (failed_ids j) }
{}
