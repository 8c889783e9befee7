// What follows an opcode: numbers, lengths, and bytes of a length.
ghost use Rattle.xd_value.specs.Reading.{Gives, number_at, length_at, chunk_at};

use xd_value::{LoadWhat, StepFault};

pub fn number(rest: &[u8]) -> Result<(u32, &[u8]), StepFault>
    ensures { Gives (λ x. (x.0, x.1.now)) result (number_at rest.now) }
{
    if rest.len() < 4 {
        return Err(StepFault::Bad(LoadWhat::Short));
    }
    let (front, rest) = rest.split_at(4);
    let number = u32::from_be_bytes([front[0], front[1], front[2], front[3]]);
    Ok((number, rest))
}

#[tactic(auto, unfolding(xd_value::specs::Reading::length_at))]
pub fn count_of(rest: &[u8]) -> Result<(u32, &[u8]), StepFault>
    ensures { Gives (λ x. (x.0, x.1.now)) result (length_at rest.now) }
{
    let (n, rest) = number(rest)?;
    if n < 0x8000_0000 {
        Ok((n, rest))
    } else {
        Err(StepFault::Bad(LoadWhat::BadLength))
    }
}

#[tactic(auto, unfolding(xd_value::specs::Reading::chunk_at))]
pub fn chunk(rest: &[u8]) -> Result<(&[u8], &[u8]), StepFault>
    ensures { Gives (λ x. (x.0.now, x.1.now)) result (chunk_at rest.now) }
{
    let (n, rest) = count_of(rest)?;
    let n = n as usize;
    if rest.len() < n {
        return Err(StepFault::Bad(LoadWhat::Short));
    }
    Ok(rest.split_at(n))
}
