// Numbers and lists of them. A number that would pass 64 bits is answered as out of memory.
ghost use Rattle.std.specs.Prelude.{◌≡◌, ◌+◌, ◌==◌, IfOk, map, sum};
ghost use Rattle.std.specs.List.{list_all, list_any, range_with_len};

use std::alloc::Global;
use xd_edge::OutOfMemory;

pub fn plus(a: u64, b: u64) -> Result<u64, OutOfMemory>
    ensures { IfOk result (λ n. n ≡ a + b) }
{
    match a.checked_add(b) {
        Some(n) => Ok(n),
        None => Err(OutOfMemory),
    }
}

pub fn sum_of(numbers: &[u64]) -> Result<u64, OutOfMemory>
    ensures { IfOk result (λ n. n ≡ sum numbers.now) }
{
    let mut total = 0;
    for number in numbers {
        total = plus(total, *number)?;
    }
    Ok(total)
}

pub fn are_all_zero(numbers: &[u64]) -> bool
    ensures { result ≡ list_all (λ n. n == 0) numbers.now }
{
    numbers.iter().all(|&number| number == 0)
}

/// The numbers, each that much larger.
pub fn each_more(alloc: Global, base: u64, numbers: &[u32]) -> Result<Vec<u64>, OutOfMemory>
    ensures { IfOk result (λ more. more.items ≡ map (λ n. base + n) numbers.now) }
{
    let mut more = Vec::new(alloc);
    for number in numbers {
        more.push(plus(base, *number as u64)?)?;
    }
    Ok(more)
}

/// n numbers from the first one on.
pub fn numbers_from(alloc: Global, first: u64, count: u64) -> Result<Vec<u64>, OutOfMemory>
    ensures { IfOk result (λ numbers. numbers.items ≡ range_with_len first count) }
{
    let mut numbers = Vec::new(alloc);
    for i in 0..count {
        numbers.push(plus(first, i)?)?;
    }
    Ok(numbers)
}

pub fn is_among(item: u64, items: &[u64]) -> bool
    ensures { result ≡ list_any (λ y. item == y) items.now }
{
    items.iter().any(|&y| item == y)
}
