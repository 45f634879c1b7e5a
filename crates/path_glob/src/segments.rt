//! The segments of a path or a glob, one after the other.

ghost use Rattle.std.specs.Prelude.{◌≡◌, ◌∷◌, [], MatchOption};
ghost use Rattle.std.specs.Str.{chars};
ghost use Rattle.path_glob.specs.Segments.{segments, segments_left, without_first as after_slash, without_last as before_slash};

/// The first character of a text, and what follows it.
pub fn first_char(text: &str) -> Option<(char, &str)>
    ensures { MatchOption result (chars text.now ≡ []) (λ x. chars text.now ≡ x.0 ∷ chars x.1.now) }
{
    let mut rest = text.chars();
    let first = rest.next()?;
    Some((first, rest.as_str()))
}

/// The first of the segments that are left, and what is left after it.
pub fn first_segment<'t>(left: Option<&'t str>) -> Option<(&'t str, Option<&'t str>)>
    ensures { MatchOption result (segments_left left.entry ≡ []) (λ x. segments_left left.entry ≡ x.0.now ∷ segments_left x.1) }
{
    let text = left?;
    match text.split_once('/') {
        Some((segment, rest)) => Some((segment, Some(rest))),
        None => Some((text, None)),
    }
}

/// A text without a slash at its start.
pub fn without_first(text: &str) -> &str
    ensures { result.now ≡ after_slash text.now }
{
    text.strip_prefix('/').unwrap_or(text)
}

/// A text without a slash at its end.
pub fn without_last(text: &str) -> &str
    ensures { result.now ≡ before_slash text.now }
{
    text.strip_suffix('/').unwrap_or(text)
}
