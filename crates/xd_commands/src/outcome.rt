// Outcomes by their words and codes.
ghost use Rattle.std.specs.Prelude.{◌≡◌, if◌then◌else◌};
ghost use Rattle.xd_commands.specs.Events.{outcome_by, outcome_word, outcome_code, is_failure_code, is_zero};
ghost use Rattle.xd_commands.specs.Words.{IsWord};

use crate::word::is_word;
use xd_edge::Text;
use xd_journal::Outcome;

/// The outcome with this word and this code.
pub(crate) fn outcome_by(word: &Text, code: i128) -> Option<Outcome>
    ensures { result ≡ outcome_by word.now code }
{
    if is_word(word, "passed") {
        if_zero(code, Outcome::Passed)
    } else if is_word(word, "skipped") {
        if_zero(code, Outcome::Skipped)
    } else if is_word(word, "failed") {
        failure_by(code)
    } else {
        None
    }
}

/// The outcome, if its code is 0.
fn if_zero(code: i128, outcome: Outcome) -> Option<Outcome>
    ensures { result ≡ (if is_zero code then Some outcome else None) }
{
    if code == 0 { Some(outcome) } else { None }
}

/// The failure with this code.
fn failure_by(code: i128) -> Option<Outcome>
    ensures { result ≡ (if is_failure_code code then Some (Outcome.Failed code) else None) }
{
    match code {
        -3..=-1 | 1..=76 | 78..=255 => Some(Outcome::Failed(code as i32)),
        _ => None,
    }
}

pub(crate) fn word_of(outcome: Outcome) -> &'static str
    ensures ascii { IsWord result.now }
    ensures word { result.now ≡ outcome_word outcome }
{
    match outcome {
        Outcome::Passed => "passed",
        Outcome::Skipped => "skipped",
        Outcome::Failed(_) => "failed",
    }
}

pub(crate) fn code_of(outcome: Outcome) -> i32
    ensures { result ≡ outcome_code outcome }
{
    match outcome {
        Outcome::Passed | Outcome::Skipped => 0,
        Outcome::Failed(code) => code,
    }
}
