// Whether an id stands twice.
ghost use Rattle.std.specs.Prelude.{◌≡◌, ◌≤◌, length, IfOk};
ghost use Rattle.xd_edge.specs.Limits.{most_tests};
ghost use Rattle.xd_suite.specs.Faults.{earlier, fault_of_ids, repeat_of};

use crate::test::ids_in;
use crate::{SuiteFault, SuiteWhat, Test};
use std::alloc::Global;
use std::collections::BTreeSet;
use xd_edge::{ModeKind, OutOfMemory, Text};

/// The first test whose id, alone or by its group, stood before.
pub fn fault_of_ids(alloc: Global, tests: &[Test]) -> Result<Option<SuiteFault>, OutOfMemory>
    requires { length tests.now ≤ most_tests }
    ensures { IfOk result (λ fault. fault ≡ fault_of_ids tests.now) }
{
    let ids = ids_in(alloc, tests, ModeKind::Load)?;
    let group_ids = ids_in(alloc, tests, ModeKind::LoadGroup)?;
    let in_ids = repeat_of(alloc, &ids.items)?;
    let in_group_ids = repeat_of(alloc, &group_ids.items)?;
    match earlier(in_ids, in_group_ids) {
        Some(number) => Ok(Some(SuiteFault {
            test: Some(number),
            what: SuiteWhat::Repeated,
        })),
        None => Ok(None),
    }
}

fn earlier(one: Option<u32>, other: Option<u32>) -> Option<u32>
    ensures { result ≡ earlier one other }
{
    match (one, other) {
        (Some(one), Some(other)) => Some(if one <= other { one } else { other }),
        (Some(one), None) => Some(one),
        (None, other) => other,
    }
}

// The number of the first text that stood before. The cost of a text grows with the logarithm of their number.
fn repeat_of(alloc: Global, texts: &[Text]) -> Result<Option<u32>, OutOfMemory>
    requires { length texts.now ≤ most_tests }
    ensures { IfOk result (λ number. number ≡ repeat_of texts.now) }
{
    let mut seen = BTreeSet::new(alloc);
    for (number, text) in texts.iter().enumerate() {
        if !seen.insert(text.as_str())? {
            return Ok(Some(number as u32));
        }
    }
    Ok(None)
}
