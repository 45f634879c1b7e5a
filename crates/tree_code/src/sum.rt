//! Numbers made from bytes.

ghost use Rattle.std.specs.Prelude.{◌≡◌, ◌<◌};
ghost use Rattle.tree_code.specs.Sums.{mixed};

/// A number below 65,536 made from the bytes, and from such a number made from what came before them.
pub fn mix(begin: u32, text: &[u8]) -> u32
    requires { begin < 65536 }
    ensures mixed { result ≡ mixed begin text.now }
    ensures within { result < 65536 }
{
    let mut sum = begin;
    for byte in text {
        sum = (sum * 31 + (*byte as u32)) % 65536;
    }
    sum
}
