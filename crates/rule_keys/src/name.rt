//! Names of metavariables.

ghost use Rattle.std.specs.Prelude.{◌≡◌};
ghost use Rattle.std.specs.Option.{option_copied};
ghost use Rattle.rule_keys.specs.Names as spec;

fn begins_name(byte: u8) -> bool
    ensures { result ≡ spec.begins_name byte }
{
    byte.is_ascii_uppercase() || byte == b'_'
}

fn goes_on(byte: u8) -> bool
    ensures { result ≡ spec.goes_on byte }
{
    begins_name(byte) || byte.is_ascii_digit()
}

fn all_go_on(bytes: &[u8]) -> bool
    ensures { result ≡ spec.all_go_on bytes.now }
{
    for byte in bytes {
        if !goes_on(*byte) {
            return false;
        }
    }
    true
}

// A capital letter or `_`, and then capital letters, digits and `_`.
fn is_plain_name(bytes: &[u8]) -> bool
    ensures { result ≡ spec.is_plain_name bytes.now }
{
    let Some((first, rest)) = bytes.split_first() else {
        return false;
    };
    begins_name(*first) && all_go_on(rest)
}

/// What is behind a byte, if that one is first.
fn past(byte: u8, bytes: &[u8]) -> Option<&[u8]>
    ensures { option_copied result ≡ spec.past byte bytes.now }
{
    let (first, rest) = bytes.split_first()?;
    if *first == byte { Some(rest) } else { None }
}

/// What is behind three dots, if they are first.
fn past_dots(bytes: &[u8]) -> Option<&[u8]>
    ensures { option_copied result ≡ spec.past_dots bytes.now }
{
    let one = past(b'.', bytes)?;
    let two = past(b'.', one)?;
    past(b'.', two)
}

/// Whether the text is `$NAME` or `$...NAME`.
pub fn is_name(text: &str) -> bool
    ensures { result ≡ spec.is_name text.now }
{
    let Some(rest) = past(b'$', text.as_bytes()) else {
        return false;
    };
    match past_dots(rest) {
        Some(rest) => is_plain_name(rest),
        None => is_plain_name(rest),
    }
}
