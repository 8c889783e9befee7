// Where texts are cut.
ghost use Rattle.std.specs.Prelude.{◌≡◌, ◌<◌, ◌∷◌, [], length, MatchOption, option_map};
ghost use Rattle.xd_spec.specs.Spec.{cut_at, last_cut, spec_parts};

/// The text before the first such character and that after it.
pub fn cut_at(mark: char, text: &str) -> Option<(&str, &str)>
    requires { mark < 128 }
    ensures { option_map (λ p. (p.0.now, p.1.now)) result ≡ cut_at mark text.now }
{
    text.split_once(mark)
}

/// The first part of a spec, and what stands after its `//`.
pub fn cut_part(text: &str) -> Option<(&str, &str)>
    ensures parts { MatchOption result (spec_parts text.now ≡ text.now ∷ []) (λ p.
        spec_parts text.now ≡ p.0.now ∷ spec_parts p.1.now) }
    ensures shorter { MatchOption result (length text.now ≡ length text.now) (λ p.
        length p.1.now < length text.now) }
{
    text.split_once("//")
}

/// A host and a port: the text before the last colon and that after it.
pub fn cut_port(address: &str) -> Option<(&str, &str)>
    ensures { option_map (λ p. (p.0.now, p.1.now)) result ≡ last_cut 58 address.now }
{
    address.rsplit_once(':')
}
