// Laws over the reports of whole runs, in the words of the definitions of a run and of a report.
ghost use Rattle.std.specs.Prelude.{◌≡◌, length};
ghost use Rattle.xd_journal.specs.declared.journal.Journal.{Journal};
ghost use Rattle.xd_run_laws.specs.Whole.{IsWhole, tests_in};
ghost use Rattle.xd_drive.specs.ItemIds.{NamesItems, ids_in};

/// In every mode, in the report of a whole journal the line of each report and of each test that is tried again, and the
/// block of each failed report, give the id that its item has: its place in the first collection, in mode each its place in
/// the first one of its slot.
pub fn names_law()
    ensures { (j : Journal) → IsWhole j → NamesItems j }
{}

/// In every mode as many items have ids as tests were collected, so each item that a whole journal reports has one.
pub fn ids_law()
    ensures { (j : Journal) → length (ids_in j) ≡ tests_in j }
{}
