// Facts about the definitions.
ghost use Rattle.xd_worker_tests.specs.History.{CallKnowsTests, StartsOnce};
ghost use Rattle.xd_worker_tests.specs.Logs.{OneLog};
ghost use Rattle.xd_worker_tests.specs.Rows.{StealRow};
ghost use Rattle.xd_worker_tests.specs.Idle.{IdleLaw};

/// Five tests of which one runs: two that wait can be taken back, and then two of which one is the next cannot.
pub fn two_steals()
    ensures { StealRow }
{}

/// Whatever comes, no test is started twice, also where tests were given back and given again.
pub fn a_test_starts_once()
    ensures { StartsOnce }
{}

/// Whatever comes, a test that runs or that is started is one of the suite, whose size is that of the one collection that
/// was sent.
pub fn a_test_is_of_the_suite()
    ensures { CallKnowsTests }
{}

/// Whatever comes, one log is open at a time: it is that of the running test, and its pieces and its close have the number
/// that its start named. The numbers rise by two, and none is over 2,147,483,647.
pub fn one_log_is_open()
    ensures { OneLog }
{}

/// Whatever comes, where the suite is served and no test runs, at most one test is left in the line, and no mark: a test is
/// started as soon as another entry stands after it.
pub fn idle_law()
    ensures { IdleLaw }
{}
