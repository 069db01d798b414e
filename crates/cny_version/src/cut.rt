//! Texts cut at a byte.
ghost use Rattle.std.specs.Prelude.{◌≡◌, ◌<◌, ◌∷◌, [], length, MatchOption, IfSome};
ghost use Rattle.std.specs.Option.{option_map};
ghost use Rattle.cny_version.specs.Reading.{cut, pieces};

/// What stands before and after the first such byte of a text.
pub(crate) fn cut(text: &str, byte: char) -> Option<(&str, &str)>
    requires { byte < 128 }
    ensures cut { option_map (λ parts. (parts.0.now, parts.1.now)) result ≡ cut byte text.now }
    ensures pieces { MatchOption result (pieces byte text.now ≡ text.now ∷ []) (λ parts. pieces byte text.now ≡ parts.0.now ∷ pieces byte parts.1.now) }
    ensures shorter { IfSome result (λ parts. length parts.1.now < length text.now) }
{
    text.split_once(byte)
}
