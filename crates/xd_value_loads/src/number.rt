ghost use Rattle.std.specs.Prelude.{◌≡◌, ◌≤◌, neg_ℤ, pos};
ghost use Rattle.xd_value.specs.Reading.{plain_value as plain_value_of, long_value as long_value_of};

const HIGHEST: u128 = 170_141_183_460_469_231_731_687_303_715_884_105_727;

const LOWEST: u128 = 170_141_183_460_469_231_731_687_303_715_884_105_728;

/// The number that digits write, if it is at most this.
fn plain_value(digits: &[u8], most: u128) -> Option<u128>
    requires { 9 ≤ most }
    ensures { result ≡ plain_value_of digits.now most }
{
    if digits.is_empty() {
        return None;
    }
    let mut n: u128 = 0;
    for b in digits {
        if !b.is_ascii_digit() {
            return None;
        }
        let d = (*b - b'0') as u128;
        if n > (most - d) / 10 {
            return None;
        }
        n = n * 10 + d;
    }
    Some(n)
}

fn negated(n: u128) -> i128
    requires { n ≤ 170141183460469231731687303715884105728 }
    ensures { result ≡ neg_ℤ (pos n) }
{
    if n == LOWEST {
        i128::MIN
    } else {
        0 - n as i128
    }
}

/// The number that an optional minus and digits write, if it fits.
pub fn long_value(bytes: &[u8]) -> Option<i128>
    ensures { result ≡ long_value_of bytes.now }
{
    let (first, after) = bytes.split_first()?;
    if *first == b'-' {
        let n = plain_value(after, LOWEST)?;
        Some(negated(n))
    } else {
        let n = plain_value(bytes, HIGHEST)?;
        Some(n as i128)
    }
}
