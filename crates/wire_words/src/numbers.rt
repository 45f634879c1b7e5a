//! Numbers in words.

ghost use Rattle.std.specs.Prelude.{◌≡◌, ◌≤◌, ◌<◌, ◌⊎◌, ◌↔◌, ℕ, IsTrue, IfSome, IfNone, length, slice_index};
ghost use Rattle.std.specs.Fmt.{decimal};

/// The highest value of `--max`, and the one that holds where it isn't given.
pub const MOST_FINDINGS: u64 = 50_000;

/// Whether a word begins as no number is written: with a sign, or with a zero before other digits.
fn is_padded(word: &[u8]) -> bool
    ensures { IsTrue result ↔ (((0 < length word.now) × (slice_index word.now 0 ≡ 43)) ⊎ ((1 < length word.now) × (slice_index word.now 0 ≡ 48))) }
{
    (!word.is_empty() && word[0] == b'+') || (word.len() > 1 && word[0] == b'0')
}

/// The number that a word writes in decimal without leading zeros, up to the highest one that is asked for.
pub fn number(word: &str, most: u64) -> Option<u64>
    ensures some { IfSome result (λ n. (n ≤ most) × (word.now ≡ decimal n)) }
    ensures none { IfNone result ((n : ℕ) → n ≤ most → word.now ≡ decimal n → ⊥) }
{
    if is_padded(word.as_bytes()) {
        return None;
    }
    let n = word.parse::<u64>().ok()?;
    if n > most {
        return None;
    }
    Some(n)
}
