// The words of `--tx`.
ghost use Rattle.std.specs.Prelude.{◌≡◌, ◌≢◌, ◌≤◌, ◌++◌, [], length, map, replicate, IfOk, IfErr, OnOk, Ok, Err, MatchResult};
ghost use Rattle.std.specs.Str.{encode_utf8_all};
ghost use Rattle.xd_spec.specs.Tx.{count_and_spec, tx_of, with_counted, with_words};
ghost use Rattle.xd_spec.specs.declared.fault.SpecFault.TheVariants.{OutOfMemory as NoMemory};

use crate::SpecFault;
use crate::cuts::cut_at;
use crate::numbers::{all_digits, number_in};
use crate::spec::place_in;
use std::alloc::Global;
use xd_edge::{OutOfMemory, Text};
use xd_link::Place;

/// As many workers as a run may have at once.
const MAX_WORKERS: u32 = 32;

/// The places that the words name: each is a spec, or a number of workers, `*` and a spec.
pub fn expand_tx(alloc: Global, texts: &[Text]) -> Result<Vec<Place>, SpecFault>
    ensures read { IfOk result (λ ps. tx_of (map encode_utf8_all texts.now) ≡ Ok ps.items) }
    ensures few { IfOk result (λ ps. length ps.items ≤ 32) }
    ensures refused { IfErr result (λ f. f ≢ NoMemory →
        tx_of (map encode_utf8_all texts.now) ≡ Err f) }
{
    let places = match places_of(alloc, texts) {
        Ok(Ok(places)) => places,
        Ok(Err(fault)) => return Err(fault),
        Err(OutOfMemory) => return Err(SpecFault::OutOfMemory),
    };
    if places.len() > MAX_WORKERS as usize {
        return Err(SpecFault::BadCount);
    }
    Ok(places)
}

// The places of all words, or the first fault of one.
fn places_of(alloc: Global, texts: &[Text]) -> Result<Result<Vec<Place>, SpecFault>, OutOfMemory>
    ensures { IfOk result (λ r. MatchResult r
        (λ ps. with_words (Ok []) (map encode_utf8_all texts.now) ≡ Ok ps.items)
        (λ f. with_words (Ok []) (map encode_utf8_all texts.now) ≡ Err f)) }
{
    let mut places = Vec::new(alloc);
    for text in texts {
        if let Err(fault) = add_places(alloc, &mut places, text.as_str())? {
            return Ok(Err(fault));
        }
    }
    Ok(Ok(places))
}

// The places of one word after those before.
fn add_places(
    alloc: Global,
    places: &mut Vec<Place>,
    word: &str,
) -> Result<Result<(), SpecFault>, OutOfMemory>
    ensures { IfOk result (λ r. MatchResult r
        (λ _. with_counted places.old.items (count_and_spec word.now) ≡ Ok places.new.items)
        (λ f. with_counted places.old.items (count_and_spec word.now) ≡ Err f)) }
{
    let (count, spec) = match counted(word) {
        Ok(counted) => counted,
        Err(fault) => return Ok(Err(fault)),
    };
    let place = match place_in(alloc, spec)? {
        Ok(place) => place,
        Err(fault) => return Ok(Err(fault)),
    };
    add_copies(alloc, places, count, &place)?;
    Ok(Ok(()))
}

#[tactic(auto, using(crate::proofs::Copies::one_more))]
fn add_copies(
    alloc: Global,
    places: &mut Vec<Place>,
    count: u32,
    place: &Place,
) -> Result<(), OutOfMemory>
    ensures { OnOk result (places.new.items ≡ places.old.items ++ replicate count place.now) }
{
    for _ in 0..count {
        let copy = place.copy(alloc)?;
        places.push(copy)?;
    }
    Ok(())
}

// How many workers a word is for, and its spec.
fn counted(word: &str) -> Result<(u32, &str), SpecFault>
    ensures { MatchResult result (λ p. count_and_spec word.now ≡ Ok (p.0, p.1.now)) (λ f.
        count_and_spec word.now ≡ Err f) }
{
    match cut_at('*', word) {
        Some((count, spec)) if all_digits(count) => match number_in(MAX_WORKERS, count) {
            Some(count) if count > 0 => Ok((count, spec)),
            _ => Err(SpecFault::BadCount),
        },
        _ => Ok((1, word)),
    }
}
