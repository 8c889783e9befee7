// The counts of the reports.
ghost use Rattle.std.specs.Prelude.{◌≡◌, OnOk, IfOk, string_bytes};
ghost use Rattle.std.specs.Str.{encode_utf8_all};
ghost use Rattle.xd_report.specs.Summary.{counts, summary_text, with_count};

use crate::counts::Counts;
use crate::reporter::Reporter;
use std::alloc::Global;
use xd_edge::{OutOfMemory, Text};
use xd_journal::Journal;

/// The counts of the reports that are over 0, without a newline.
pub fn summary_line(alloc: Global, journal: &Journal) -> Result<Text, OutOfMemory>
    ensures { IfOk result (λ text.
        encode_utf8_all text ≡
        summary_text (counts journal.now.settings journal.now.entries.items)) }
{
    let counts = counts_of(alloc, journal)?;
    let line = summary(alloc, counts)?;
    Ok(Text::from_string(line))
}

/// How many reports of each kind a journal has.
pub fn counts_of(alloc: Global, journal: &Journal) -> Result<Counts, OutOfMemory>
    ensures { IfOk result (λ found. found ≡ counts journal.now.settings journal.now.entries.items) }
{
    let mut reporter = Reporter::new(alloc, journal.settings);
    let mut counts = Counts::none();
    reporter.count_all(alloc, &mut counts, &journal.entries)?;
    Ok(counts)
}

pub fn summary(alloc: Global, counts: Counts) -> Result<String, OutOfMemory>
    ensures { IfOk result (λ line. string_bytes line ≡ summary_text counts) }
{
    let mut line = String::new(alloc);
    add_part(alloc, &mut line, counts.failed, " failed")?;
    add_part(alloc, &mut line, counts.passed, " passed")?;
    add_part(alloc, &mut line, counts.skipped, " skipped")?;
    if line.is_empty() {
        line.push_str("no tests ran")?;
    }
    Ok(line)
}

fn add_part(alloc: Global, out: &mut String, n: u64, word: &str) -> Result<(), OutOfMemory>
    ensures { OnOk result (string_bytes out.new ≡ with_count (string_bytes out.old) n word.now) }
{
    if n == 0 {
        return Ok(());
    }
    if !out.is_empty() {
        out.push_str(", ")?;
    }
    let number = n.to_string(alloc)?;
    out.push_str(number.as_str())?;
    out.push_str(word)?;
    Ok(())
}
