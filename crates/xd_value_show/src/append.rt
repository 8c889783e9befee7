// What is added at the end of a text.
ghost use Rattle.std.specs.Prelude.{◌≡◌, ◌++◌, ◌∷◌, [], OnOk, IsTrue};
ghost use Rattle.std.specs.Char.{is_ascii};
ghost use Rattle.std.specs.List.{list_all};

use std::alloc::AllocError;
use xd_edge::Text;

/// Appends words of ASCII.
pub(crate) fn put(out: &mut Text, words: &str) -> Result<(), AllocError>
    requires { IsTrue (list_all is_ascii words.now) }
    ensures { OnOk result (out.new ≡ out.old ++ words.now) }
{
    out.text.push_str(words)?;
    Ok(())
}

pub(crate) fn put_char(out: &mut Text, c: char) -> Result<(), AllocError>
    ensures { OnOk result (out.new ≡ out.old ++ c ∷ []) }
{
    out.text.push(c)?;
    Ok(())
}
