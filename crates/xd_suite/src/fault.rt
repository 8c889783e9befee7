// Why a suite file is refused.
ghost use Rattle.std.specs.Prelude.{◌≡◌, IfOk, string_bytes};
ghost use Rattle.std.specs.Str.{encode_utf8_all};
ghost use Rattle.xd_suite.specs.FaultText.{blamed_text, fault_text, what_text};
ghost use Rattle.xd_suite.specs.Faults.{of_file, of_test};
ghost use Rattle.xd_suite.specs.declared.fault.SuiteRefusal.TheVariants.{OutOfMemory as NoMemory};

use std::alloc::{AllocFailed, Global};
use xd_edge::{OutOfMemory, Text};

/// What is wrong with a suite file. The first that applies is told; those of a test come in the order of the tests.
#[derive(Clone, Copy, Debug, PartialEq, Eq)]
pub enum SuiteWhat {
    /// It has over 4,194,304 bytes.
    TooLarge,
    /// It is no UTF-8, or no TOML.
    NotToml,
    /// The file has a key beside `test`, or the test one beside `id`, `run` and `group`.
    UnknownKey,
    /// `test` is no array of tables. In a test: `id` or `group` is no text, or `run` no array of texts.
    WrongKind,
    /// There are over 50,000 tests.
    TooMany,
    /// The test has no `id` or no `run`, or nothing to run.
    Missing,
    /// The id or the group of the test is empty or has a control character of ASCII.
    BadId,
    /// The id of the test, alone or with `@` and its group after it, stood before.
    Repeated,
}

/// What is wrong with a suite file, and with which of its tests, counted from 0, where one is to blame.
#[derive(Clone, Copy, Debug, PartialEq, Eq)]
pub struct SuiteFault {
    pub test: Option<u32>,
    pub what: SuiteWhat,
}

impl SuiteFault {
    /// The fault in words, without a newline: `suite is not TOML`, `test 3: repeated id`.
    pub fn text(self, alloc: Global) -> Result<Text, OutOfMemory>
        ensures { IfOk result (λ text. encode_utf8_all text ≡ fault_text self) }
    {
        let text = fault_text(alloc, self)?;
        Ok(Text::from_string(text))
    }
}

fn fault_text(alloc: Global, fault: SuiteFault) -> Result<String, OutOfMemory>
    ensures { IfOk result (λ text. string_bytes text ≡ fault_text fault) }
{
    let mut text = blamed_text(alloc, fault)?;
    text.push_str(what_text(fault.what))?;
    Ok(text)
}

#[tactic(auto, unfolding(crate::specs::FaultText::blamed_text))]
fn blamed_text(alloc: Global, fault: SuiteFault) -> Result<String, OutOfMemory>
    ensures { IfOk result (λ text. string_bytes text ≡ blamed_text fault.test fault.what) }
{
    let text = match (fault.test, fault.what) {
        (Some(number), _) => format!(in alloc; "test {number}: ")?,
        (None, SuiteWhat::TooLarge | SuiteWhat::NotToml | SuiteWhat::TooMany) => {
            String::from_str(alloc, "suite ")?
        }
        (None, _) => String::from_str(alloc, "suite: ")?,
    };
    Ok(text)
}

fn what_text(what: SuiteWhat) -> &'static str
    ensures { result.now ≡ what_text what }
{
    match what {
        SuiteWhat::TooLarge => "is too large",
        SuiteWhat::NotToml => "is not TOML",
        SuiteWhat::TooMany => "has too many tests",
        SuiteWhat::UnknownKey => "unknown key",
        SuiteWhat::WrongKind => "wrong kind",
        SuiteWhat::Missing => "missing key",
        SuiteWhat::BadId => "bad id",
        SuiteWhat::Repeated => "repeated id",
    }
}

/// Why a suite file was not read.
#[derive(Clone, Copy, Debug, PartialEq, Eq)]
pub enum SuiteRefusal {
    Bad(SuiteFault),
    OutOfMemory,
}

impl From<OutOfMemory> for SuiteRefusal {
    ghost from_gives = { λ _ e. e ≡ NoMemory };

    fn from(_: OutOfMemory) -> Self {
        SuiteRefusal::OutOfMemory
    }
}

impl<T: Drop> From<AllocFailed<T>> for SuiteRefusal {
    ghost from_gives = { λ _ e. e ≡ NoMemory };

    fn from(_: AllocFailed<T>) -> Self {
        SuiteRefusal::OutOfMemory
    }
}

/// A fault of the whole file.
pub fn of_file(what: SuiteWhat) -> SuiteRefusal
    ensures { result ≡ SuiteRefusal.Bad (of_file what) }
{
    SuiteRefusal::Bad(SuiteFault { test: None, what })
}

/// A fault of one test.
pub fn of_test(number: u32, what: SuiteWhat) -> SuiteRefusal
    ensures { result ≡ SuiteRefusal.Bad (of_test number what) }
{
    SuiteRefusal::Bad(SuiteFault {
        test: Some(number),
        what,
    })
}
