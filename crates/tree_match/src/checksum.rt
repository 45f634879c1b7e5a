//! Numbers made from kinds and texts.

ghost use Rattle.std.specs.Prelude.{◌≡◌, ◌<◌};
ghost use Rattle.node_tree.specs.Tree.{pre_of};
ghost use Rattle.tree_match.specs.Checksums.{checksum_all};

use node_tree::Node;
use tree_code::mix;

/// A number below 65,536 made from the kinds and texts of a node and all that is below it, and from such a number made from what came
/// before them.
pub fn add_checksum(begin: u32, node: &Node) -> u32
    requires { begin < 65536 }
    ensures sum { result ≡ checksum_all begin (pre_of node.now) }
    ensures within { result < 65536 }
{
    let kind = node.kind.content().place();
    let mut sum = mix(
        (begin * 31 + (kind as u32)) % 65536,
        node.text.as_str().as_bytes(),
    );
    for kid in node.kids.as_slice() {
        sum = add_checksum(sum, kid);
    }
    sum
}
