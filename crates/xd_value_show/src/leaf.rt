// Values without parts.
ghost use Rattle.std.specs.Prelude.{◌≡◌, ◌++◌, ◌<◌, OnOk, codes};
ghost use Rattle.std.specs.Char.{digit_char};
ghost use Rattle.std.specs.Fmt.{decimal, signed_decimal};
ghost use Rattle.std.specs.Str.{chars};
ghost use Rattle.xd_value_show.specs.Show.{between, hex, hex_pair, escaped, escapes};

use crate::append::{put, put_char};
use itoa::Buffer;
use std::alloc::AllocError;
use xd_edge::Text;

pub(crate) fn print_int(out: &mut Text, n: i128) -> Result<(), AllocError>
    ensures { OnOk result (out.new ≡ out.old ++ signed_decimal n) }
{
    let mut buffer = Buffer::new();
    put(out, buffer.format(n))?;
    Ok(())
}

pub(crate) fn print_channel(out: &mut Text, n: u32) -> Result<(), AllocError>
    ensures { OnOk result (out.new
        ≡ out.old ++ between (codes "channel(") (decimal n) (codes ")")) }
{
    put(out, "channel(")?;
    print_int(out, n as i128)?;
    put(out, ")")?;
    Ok(())
}

/// The hexadecimal digit of a number below 16.
fn digit(n: u8) -> char
    requires { n < 16 }
    ensures { result ≡ digit_char n }
{
    let digit = if n < 10 { b'0' + n } else { b'a' + (n - 10) };
    digit as char
}

/// Appends the two digits of a byte.
fn put_digits(out: &mut Text, byte: u8) -> Result<(), AllocError>
    ensures { OnOk result (out.new ≡ out.old ++ hex_pair byte) }
{
    put_char(out, digit(byte / 16))?;
    put_char(out, digit(byte % 16))?;
    Ok(())
}

pub(crate) fn print_bytes(out: &mut Text, bytes: &[u8]) -> Result<(), AllocError>
    ensures { OnOk result (out.new
        ≡ out.old ++ between (codes "bytes(") (hex bytes.now) (codes ")")) }
{
    put(out, "bytes(")?;
    for byte in bytes {
        put_digits(out, *byte)?;
    }
    put(out, ")")?;
    Ok(())
}

/// Appends a character as it stands inside a text.
fn put_escaped(out: &mut Text, c: char) -> Result<(), AllocError>
    ensures { OnOk result (out.new ≡ out.old ++ escaped c) }
{
    if c == '"' || c == '\\' {
        put_char(out, '\\')?;
        put_char(out, c)?;
    } else if c < ' ' || c == '\x7f' {
        put(out, "\\x")?;
        put_digits(out, c as u8)?;
    } else {
        put_char(out, c)?;
    }
    Ok(())
}

fn put_escapes(out: &mut Text, text: &str) -> Result<(), AllocError>
    ensures { OnOk result (out.new ≡ out.old ++ escapes (chars text.now)) }
{
    for c in text.chars() {
        put_escaped(out, c)?;
    }
    Ok(())
}

pub(crate) fn print_text(out: &mut Text, text: &Text) -> Result<(), AllocError>
    ensures { OnOk result (out.new
        ≡ out.old ++ between (codes "\"") (escapes text.now) (codes "\"")) }
{
    put_char(out, '"')?;
    put_escapes(out, text.as_str())?;
    put_char(out, '"')?;
    Ok(())
}
