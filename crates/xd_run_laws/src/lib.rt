//! Laws over whole runs, in the words of the definitions of a run.
#![tactic(auto)]

ghost use Rattle.std.specs.Prelude.{◌≡◌, ◌++◌, ◌∷◌, ℕ, List, [], true, false};
ghost use Rattle.xd_journal.specs.declared.settings.Settings.{Settings};
ghost use Rattle.xd_journal.specs.declared.entry.Entry.{Entry};
ghost use Rattle.xd_journal.specs.declared.journal.Journal.{Journal};
ghost use Rattle.xd_run.specs.Histories.{after_starts, is_over, journal_of, after_inputs};
ghost use Rattle.xd_run.specs.State.{state_at};
ghost use Rattle.xd_run.specs.Stops.{is_stopped};
ghost use Rattle.xd_run.specs.Proper.{IsProper};
ghost use Rattle.xd_run.specs.Orderly.{is_orderly_run};
ghost use Rattle.xd_run.specs.Owes.{someone_owes};
ghost use Rattle.xd_run.specs.Reports.{Report, Crash, reports};
ghost use Rattle.xd_run_laws.specs.Collected.{IsShared};
ghost use Rattle.xd_run_laws.specs.Crashes.{IsDeath};
ghost use Rattle.xd_run_laws.specs.Early.{has_collection};
ghost use Rattle.xd_run_laws.specs.Places.{StandsAt, place_by};
ghost use Rattle.xd_run_laws.specs.Once.{IsOnce};
ghost use Rattle.xd_run_laws.specs.Reported.{AreOnce};
ghost use Rattle.xd_run_laws.specs.Whole.{EndsRightly, IsWhole, NamesEach};

/// In every mode, whatever proper inputs come, what is told after them is in order: each output asks for what is
/// possible where it stands.
pub fn order_law()
    ensures { (settings : Settings) (inputs : List Entry) → IsProper settings inputs →
        is_orderly_run (after_starts settings) inputs ≡ true }
{}

/// In every mode, after whatever proper inputs, each test of the run stands in one place: in the pool, held by a
/// worker, or reported.
pub fn one_place_law()
    ensures { (settings : Settings) (inputs : List Entry) → IsProper settings inputs →
        IsOnce (after_inputs (after_starts settings) inputs) }
{}

/// In every mode the reports of a run name each of its tests at most once, and where the run is over and was not stopped
/// each once.
pub fn report_law()
    ensures { (settings : Settings) (inputs : List Entry) → IsProper settings inputs →
        AreOnce (reports settings (journal_of settings inputs))
        (after_inputs (after_starts settings) inputs) }
{}

/// In every mode a run that is over and was not stopped was shared, and its tests are those that were collected.
pub fn shared_law()
    ensures { (settings : Settings) (inputs : List Entry) → IsProper settings inputs →
        is_over (after_inputs (after_starts settings) inputs).books ≡ true →
        is_stopped (after_inputs (after_starts settings) inputs).books ≡ false →
        IsShared (after_inputs (after_starts settings) inputs) }
{}

/// In every mode the reports of a whole journal name each collected test at most once and nothing else, and each once
/// where the run was completed.
pub fn whole_law()
    ensures { (j : Journal) → IsWhole j → NamesEach j }
{}

/// In every mode a whole journal says that the run was completed only where it is over and was not stopped, and each other
/// stop but that of the output is one that an entry brings: the failures reach the limit, one worker more is lost than
/// may be replaced, two collections differ, or a worker refuses.
pub fn end_law()
    ensures { (j : Journal) → IsWhole j → EndsRightly j }
{}

/// In every mode no report stands before the first collection.
pub fn early_law()
    ensures { (settings : Settings) (inputs : List Entry) → IsProper settings inputs →
        (before : List Entry) (after : List Entry) → journal_of settings inputs ≡ before ++ after →
        has_collection before ≡ false → reports settings before ≡ [] }
{}

/// In every mode, after each part of a journal, an item stands where the last entry of that part that moves it put it, and
/// nowhere where none did.
pub fn place_law()
    ensures { (settings : Settings) (inputs : List Entry) → IsProper settings inputs →
        (before : List Entry) (after : List Entry) → journal_of settings inputs ≡ before ++ after →
        (item : ℕ) → StandsAt (state_at settings before).books.table item
        (place_by settings before item) }
{}

/// In every journal each crash among the reports is the entry by which its worker went down, after the entries of the reports
/// before it, and its test was the first that the worker held there and was not to be tried again.
pub fn crash_law()
    ensures { (settings : Settings) (es : List Entry) (earlier : List Report) (later : List Report)
        (worker : ℕ) (item : ℕ) → reports settings es ≡ earlier ++ Crash worker item ∷ later →
        IsDeath settings es earlier worker item }
{}

/// In every mode, after whatever proper inputs and their outputs, a run that is not over has a worker that owes the
/// next step: it is not ready yet, has not collected, is to end, has a test that it may start, or has to answer a steal.
pub fn owes_law()
    ensures { (settings : Settings) (inputs : List Entry) → IsProper settings inputs →
        is_over (after_inputs (after_starts settings) inputs).books ≡ false →
        someone_owes (after_inputs (after_starts settings) inputs) ≡ true }
{}
