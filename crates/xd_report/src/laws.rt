// Laws over reports.
ghost use Rattle.std.specs.Prelude.{◌≡◌, ◌≤◌, ℕ, false, List, [], ◌∷◌, ◌++◌, length, Some};
ghost use Rattle.xd_edge.specs.declared.mode.ModeKind.TheVariants as ModeKind;
ghost use Rattle.xd_journal.specs.declared.entry.Entry.{Entry};
ghost use Rattle.xd_journal.specs.declared.entry.Entry.TheVariants.{Over};
ghost use Rattle.xd_journal.specs.declared.entry.RunStop.{RunStop};
ghost use Rattle.xd_journal.specs.declared.settings.Settings.{Settings};
ghost use Rattle.xd_journal.specs.Local.{TestResult, local_entries};
ghost use Rattle.xd_run.specs.declared.member.Listed.{Listed};
ghost use Rattle.xd_run.specs.Collections.{listed_in};
ghost use Rattle.xd_run.specs.Plan.{is_each};
ghost use Rattle.xd_run.specs.State.{after_entries, no_one};
ghost use Rattle.xd_run.specs.Reports.{reports};
ghost use Rattle.xd_report.specs.Blocks.{blocks_from};
ghost use Rattle.xd_report.specs.EachReport.{CountsReports, HasBlockEach, HasLineEach, HasNamedBlockEach, HasNamedLineEach, id_in, kept_outputs, retried};
ghost use Rattle.xd_report.specs.Lines.{lines_from, run_lines, tests_line};
ghost use Rattle.xd_report.specs.LocalLines.{test_lines};
ghost use Rattle.xd_report.specs.Summary.{counts};

/// The lines of a journal with workers begin those of each longer one; what follows are the lines of the entries that
/// were added, after the state that the earlier ones left.
pub fn lines_law()
    ensures { (settings : Settings) (entries : List Entry) (more : List Entry) →
        run_lines settings (entries ++ more) ≡ run_lines settings entries
        ++ lines_from (after_entries (no_one settings) entries) more }
{}

/// Among the lines of a journal each report has exactly one, in order. The others tell of the run and its workers, in words
/// that no worker chooses, or begin with RETRY and name a test that is tried again and so is not reported there; so none of
/// them can be read as a result.
pub fn line_law()
    ensures { (settings : Settings) (entries : List Entry) →
        HasLineEach settings.mode (run_lines settings entries) (reports settings entries) }
{}

/// Where no report stands before the first collection, and no test is tried again there, the line of each report and of
/// each test that is tried again gives the id that this collection has at the place of the test; and so does the block of
/// each failed report. In mode each, of which nothing is said, each slot has a collection of its own.
pub fn id_law()
    ensures lines { (settings : Settings) (before : List Entry) (more : List Entry)
        (first : Listed) → is_each settings.mode ≡ false → reports settings before ≡ [] →
        retried settings before ≡ [] →
        listed_in 0 (after_entries (no_one settings) before).books.lists ≡ Some first →
        HasNamedLineEach (id_in first.ids) settings.mode (run_lines settings (before ++ more))
        (reports settings (before ++ more)) }
    ensures blocks { (settings : Settings) (before : List Entry) (more : List Entry)
        (first : Listed) → is_each settings.mode ≡ false → reports settings before ≡ [] →
        listed_in 0 (after_entries (no_one settings) before).books.lists ≡ Some first →
        HasNamedBlockEach (id_in first.ids) settings.mode
        (blocks_from (no_one settings) (before ++ more)) (reports settings (before ++ more))
        (kept_outputs settings (before ++ more)) }
{}

/// In a run without workers the lines are how many tests the suite has and, for each result, in order, one with the id of
/// the test at its place in the suite; the end of the run adds none.
pub fn local_law()
    ensures so_far { (settings : Settings) (ids : List (List ℕ)) (rs : List TestResult) →
        settings.mode ≡ ModeKind.Local → length rs ≤ length ids →
        run_lines settings (local_entries ids rs) ≡ tests_line ModeKind.Local
        (length ids) settings.workers ++ test_lines ids rs }
    ensures ended { (settings : Settings) (ids : List (List ℕ)) (rs : List TestResult)
        (how : RunStop) → settings.mode ≡ ModeKind.Local → length rs ≤ length ids →
        run_lines settings (local_entries ids rs ++ Over how ∷ []) ≡ tests_line ModeKind.Local
        (length ids) settings.workers ++ test_lines ids rs }
{}

/// After the lines stands a block for each failed report, in order, with the output that its entry keeps.
pub fn block_law()
    ensures { (settings : Settings) (entries : List Entry) →
        HasBlockEach settings.mode (blocks_from (no_one settings) entries)
        (reports settings entries) (kept_outputs settings entries) }
{}

/// The counts of the last line are how many reports there are of each kind, and together how many there are.
pub fn counts_law()
    ensures { (settings : Settings) (entries : List Entry) →
        CountsReports (counts settings entries) (reports settings entries) }
{}
