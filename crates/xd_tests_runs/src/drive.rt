// Whole runs over a hub that gives listed news.
mod breaches;
mod drawn_groups_and_steals;
mod drawn_load_and_each;
mod drawn_scopes;
mod failing_outputs;
mod limited;
mod other_breaches;
mod other_modes;
mod random_runs;
mod retried_modes;
mod retried_runs;
mod script;
mod worked_modes;
mod worked_runs;

use script::run_of;
use std::alloc::Global;
use std::process::Abort;
use std::sync::Wait;
use std::test::Fail;

fn next_field(words: &str) -> Result<(&str, &str), Fail> {
    Ok(words.split_once(" ~ ").ok_or("one more field")?)
}

// Each run of a table has its journal, its status and its text.
fn expect_runs<R: Wait + Abort>(rt: &R, alloc: Global, runs: &str) -> Result<(), Fail> {
    for line in runs.lines() {
        let (name, line) = next_field(line)?;
        let (settings, line) = next_field(line)?;
        let (news, wanted) = next_field(line)?;
        let found = run_of(rt, alloc, settings, news)?;
        assert_eq!(rt; found.rest.as_str(), wanted, "{name}");
    }
    Ok(())
}

#[test]
fn worked_runs_have_their_journals_and_texts(rt: HostRuntime) -> Result<(), Fail> {
    expect_runs(&rt, rt.alloc(), worked_runs::runs())?;
    expect_runs(&rt, rt.alloc(), worked_modes::runs())
}

#[test]
fn breaches_and_their_neighbours_have_their_journals(rt: HostRuntime) -> Result<(), Fail> {
    expect_runs(&rt, rt.alloc(), breaches::runs())?;
    expect_runs(&rt, rt.alloc(), other_breaches::runs())
}

#[test]
fn random_runs_are_those_of_the_model(rt: HostRuntime) -> Result<(), Fail> {
    expect_runs(&rt, rt.alloc(), random_runs::runs())
}

#[test]
fn random_runs_of_other_modes_are_those_of_the_model(rt: HostRuntime) -> Result<(), Fail> {
    expect_runs(&rt, rt.alloc(), other_modes::runs())?;
    expect_runs(&rt, rt.alloc(), drawn_load_and_each::runs())?;
    expect_runs(&rt, rt.alloc(), drawn_scopes::runs())?;
    expect_runs(&rt, rt.alloc(), drawn_groups_and_steals::runs())
}

#[test]
fn runs_in_which_crashed_tests_are_tried_again_are_those_of_the_model(
    rt: HostRuntime,
) -> Result<(), Fail> {
    expect_runs(&rt, rt.alloc(), retried_runs::runs())?;
    expect_runs(&rt, rt.alloc(), retried_modes::runs())
}

#[test]
fn after_a_failing_output_only_kills_are_asked_for(rt: HostRuntime) -> Result<(), Fail> {
    let alloc = rt.alloc();
    for line in failing_outputs::runs().lines() {
        let (name, line) = next_field(line)?;
        let (settings, line) = next_field(line)?;
        let (news, wanted) = next_field(line)?;
        let found = run_of(&rt, alloc, settings, news)?;
        let all = format!(in alloc; "{}~ {}", found.calls, found.rest)?;
        assert_eq!(rt; all.as_str(), wanted, "{name}");
    }
    Ok(())
}
