//! Both ends of a link over messages: what a worker says is, as its controller hears it, what its call of `run_tests`
//! tells. So what is proved of calls and their news holds of workers that take messages and say messages.
#![tactic(auto)]

ghost use Rattle.xd_system_messages.specs.Bridge.{SaysWhatItTells, WaitsForItsCall};
ghost use Rattle.xd_system_messages.specs.Steps.{ReachedAreMoments};
ghost use Rattle.xd_system_messages.specs.SystemLaw.{HoldsInEachState};

/// Before `run_tests` is called a worker takes no input, and so says nothing. Once it was called, and the link has not
/// ended, what it says means to its controller, as news, exactly what its call tells; the orders that came to the call
/// are the first of those told; and it starts the tests that its call starts.
pub fn a_worker_is_heard_as_its_call()
    ensures waits { WaitsForItsCall }
    ensures says { SaysWhatItTells }
{}

/// A controller takes news one by one, workers take what it writes, and links may be cut at any byte: each state that
/// such steps reach is a moment of honest workers.
pub fn steps_reach_moments()
    ensures { ReachedAreMoments }
{}

/// In each state that such steps reach no worker is called in breach, each test is in its place, something goes on where
/// a worker owes the next step, and without deaths each item ran once.
pub fn system_law()
    ensures { HoldsInEachState }
{}
