// Numbers in decimal digits, which may begin with zeros.
ghost use Rattle.std.specs.Prelude.{◌≡◌, ◌≤◌, IfSome};
ghost use Rattle.std.specs.List.{list_all};
ghost use Rattle.xd_spec.specs.Numbers.{all_digits, is_digit, number_in};

/// All bytes are digits, and there is one.
pub fn all_digits(text: &str) -> bool
    ensures { result ≡ all_digits text.now }
{
    let bytes = text.as_bytes();
    !bytes.is_empty() && are_digits(bytes)
}

fn are_digits(bytes: &[u8]) -> bool
    ensures { result ≡ list_all is_digit bytes.now }
{
    for byte in bytes {
        if !is_digit(*byte) {
            return false;
        }
    }
    true
}

fn is_digit(byte: u8) -> bool
    ensures { result ≡ is_digit byte }
{
    byte >= b'0' && byte <= b'9'
}

/// The number that the text writes, where it is digits and the number is at most this limit.
pub fn number_in(limit: u32, text: &str) -> Option<u32>
    requires { limit ≤ 1000000 }
    ensures number { result ≡ number_in limit text.now }
    ensures few { IfSome result (λ n. n ≤ limit) }
{
    let bytes = text.as_bytes();
    if bytes.is_empty() {
        return None;
    }
    let mut number = 0;
    for byte in bytes {
        if !is_digit(*byte) {
            return None;
        }
        number = 10 * number + u32::from(*byte - b'0');
        if number > limit {
            return None;
        }
    }
    Some(number)
}
