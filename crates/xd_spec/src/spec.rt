// One spec.
ghost use Rattle.std.specs.Prelude.{◌≡◌, ◌≢◌, IfOk, IfErr, Ok, Err};
ghost use Rattle.std.specs.Str.{encode_utf8_all};
ghost use Rattle.xd_spec.specs.Spec.{empty_draft, spec_parts, spec_of, with_parts};
ghost use Rattle.xd_spec.specs.declared.fault.SpecFault.TheVariants.{OutOfMemory as NoMemory};

use crate::SpecFault;
use crate::cuts::cut_part;
use crate::draft::Draft;
use std::alloc::Global;
use xd_edge::{OutOfMemory, Text};
use xd_link::Place;

/// Specs of workers, as execnet's `XSpec` writes them: parts joined by `//`, each a key, or a key and a value.
pub struct Spec;

impl Spec {
    /// The place that the spec names.
    pub fn parse(alloc: Global, text: &Text) -> Result<Place, SpecFault>
        ensures read { IfOk result (λ p. spec_of (encode_utf8_all text.now) ≡ Ok p) }
        ensures refused { IfErr result (λ f. f ≢ NoMemory →
            spec_of (encode_utf8_all text.now) ≡ Err f) }
    {
        match place_in(alloc, text.as_str()) {
            Ok(read) => read,
            Err(OutOfMemory) => Err(SpecFault::OutOfMemory),
        }
    }
}

/// The place that a spec names.
pub fn place_in(alloc: Global, text: &str) -> Result<Result<Place, SpecFault>, OutOfMemory>
    ensures { IfOk result (λ r. r ≡ spec_of text.now) }
{
    match draft_of(alloc, text)? {
        Ok(draft) => Ok(draft.place()),
        Err(fault) => Ok(Err(fault)),
    }
}

// What all parts say, or the first fault of one.
fn draft_of(alloc: Global, text: &str) -> Result<Result<Draft, SpecFault>, OutOfMemory>
    ensures { IfOk result (λ r. r ≡ with_parts (Ok empty_draft) (spec_parts text.now)) }
{
    let mut draft = Draft::new(alloc);
    let mut rest = text;
    while let Some((part, later)) = cut_part(rest) {
        match draft.with_part(alloc, part)? {
            Ok(more) => draft = more,
            Err(fault) => return Ok(Err(fault)),
        }
        rest = later;
    }
    draft.with_part(alloc, rest)
}
