// The errors that are written out.
ghost use Rattle.std.specs.Prelude.{◌≡◌, IfOk, codes};

use std::alloc::Global;
use xd_edge::{OutOfMemory, Text};

/// The error of `fail` where it is given none.
pub fn fail_word(alloc: Global) -> Result<Text, OutOfMemory>
    ensures { IfOk result (λ text. text ≡ codes "fail") }
{
    let text = Text::of(alloc, "fail")?;
    Ok(text)
}

/// An item that `echo` cannot send back.
pub fn long_item_word(alloc: Global) -> Result<Text, OutOfMemory>
    ensures { IfOk result (λ text. text ≡ codes "item is too long") }
{
    let text = Text::of(alloc, "item is too long")?;
    Ok(text)
}

/// A suite that is too large.
pub fn large_suite_word(alloc: Global) -> Result<Text, OutOfMemory>
    ensures { IfOk result (λ text. text ≡ codes "suite is too large") }
{
    let text = Text::of(alloc, "suite is too large")?;
    Ok(text)
}

/// A suite file that cannot be read.
pub fn unread_suite_word(alloc: Global) -> Result<Text, OutOfMemory>
    ensures { IfOk result (λ text. text ≡ codes "suite cannot be read") }
{
    let text = Text::of(alloc, "suite cannot be read")?;
    Ok(text)
}
