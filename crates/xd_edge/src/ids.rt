// Which texts may be ids.
ghost use Rattle.std.specs.Prelude.{◌≡◌, ◌==◌, length};
ghost use Rattle.std.specs.List.{list_all};
ghost use Rattle.std.specs.Str.{chars};
ghost use Rattle.xd_edge.specs.Ids.{is_id, is_plain};

/// The text may be a test's id, or a group: it is not empty, and no character of it is a control character of ASCII.
pub fn is_id(text: &str) -> bool
    ensures { result ≡ is_id (chars text.now) }
{
    !is_empty(text) && is_printable(text)
}

fn is_empty(text: &str) -> bool
    ensures { result ≡ (length (chars text.now) == 0) }
{
    text.is_empty()
}

fn is_printable(text: &str) -> bool
    ensures { result ≡ list_all is_plain (chars text.now) }
{
    text.chars().all(|c| ' ' <= c && c != '\u{7f}')
}
