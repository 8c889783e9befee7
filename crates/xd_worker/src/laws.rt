// Facts about the definitions.
ghost use Rattle.xd_worker.specs.History.{WorkerKnowsTests};
ghost use Rattle.xd_worker.specs.Logs.{LogLaw};

/// Whatever comes, a test that runs or that is started is one of the suite that was read.
pub fn a_test_is_of_the_suite()
    ensures { WorkerKnowsTests }
{}

/// Whatever comes, each log can open where the start of its test names it: its number is the side's next one, the link has
/// not ended, and the table is not full. The table holds at most one log, the one that opened last.
pub fn each_log_opens()
    ensures { LogLaw }
{}
