// Words: texts of ASCII characters, which are their own bytes.
ghost use Rattle.std.specs.Prelude.{◌≡◌, IfOk};
ghost use Rattle.std.specs.Str.{bytes_eq};
ghost use Rattle.xd_value.specs.Tree.{text};
ghost use Rattle.xd_value.specs.View.{view};
ghost use Rattle.xd_commands.specs.Words.{IsWord};

use std::alloc::Global;
use xd_edge::{OutOfMemory, Text};
use xd_value::Value;

/// The text is this word.
pub fn is_word(text: &Text, word: &str) -> bool
    requires { IsWord word.now }
    ensures { result ≡ bytes_eq text.now word.now }
{
    text.as_str() == word
}

/// The word as a value.
pub fn word_value(alloc: Global, word: &str) -> Result<Value, OutOfMemory>
    requires { IsWord word.now }
    ensures { IfOk result (λ v. view v ≡ text word.now) }
{
    let word = Text::of(alloc, word)?;
    Ok(Value::Text(word))
}
