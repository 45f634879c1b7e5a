//! Values that are written as bytes.

ghost use Rattle.std.specs.Prelude.{◌≡◌, ◌++◌, ◌∷◌, [], length, OnOk};
ghost use Rattle.node_tree.specs.Order.{kind_place};
ghost use Rattle.node_tree.specs.Tree.{kind_of, span_of};
ghost use Rattle.tree_code.specs.Code.{number_code, text_code, place_code, tree_code};
ghost use Rattle.tree_code.specs.Looks.{seen_by};

use crate::look::Look;
use node_tree::{Memory, Node};

/// Adds a number.
pub fn add_number(bytes: &mut Vec<u8>, number: u32) -> Result<(), Memory>
    ensures { OnOk result (bytes.new.items ≡ bytes.old.items ++ number_code number) }
{
    let [a, b, c, d] = number.to_le_bytes();
    if number < 192 {
        bytes.push(a)?;
        return Ok(());
    }
    if number < 16_128 {
        bytes.extend_from_slice(&[b + 192, a])?;
        return Ok(());
    }
    bytes.extend_from_slice(&[255, a, b, c, d])?;
    Ok(())
}

/// Adds a length. `Memory` is also the answer where it passes the largest `u32`.
pub fn add_length(bytes: &mut Vec<u8>, length: usize) -> Result<(), Memory>
    ensures { OnOk result (bytes.new.items ≡ bytes.old.items ++ number_code length) }
{
    let Ok(number) = u32::try_from(length) else {
        return Err(Memory);
    };
    add_number(bytes, number)
}

/// Adds the bytes of a text behind their number.
pub fn add_text(bytes: &mut Vec<u8>, text: &[u8]) -> Result<(), Memory>
    ensures { OnOk result (bytes.new.items ≡ bytes.old.items ++ text_code text.now) }
{
    add_length(bytes, text.len())?;
    bytes.extend_from_slice(text)?;
    Ok(())
}

// Adds the kind and the range of a node.
fn add_head(bytes: &mut Vec<u8>, node: &Node, look: Look) -> Result<(), Memory>
    ensures { OnOk result (bytes.new.items ≡
        bytes.old.items ++ place_code (kind_of (seen_by look node.now)) (span_of (seen_by look node.now))) }
{
    bytes.push(look.kind_place(node))?;
    let span = look.span(node);
    add_number(bytes, span.from)?;
    add_number(bytes, span.to)
}

/// Adds a tree. `Memory` is also the answer where a length in it passes the largest `u32`.
pub fn add_tree(bytes: &mut Vec<u8>, node: &Node, look: Look) -> Result<(), Memory>
    ensures { OnOk result (bytes.new.items ≡
        bytes.old.items ++ tree_code (seen_by look node.now)) }
{
    add_head(bytes, node, look)?;
    add_text(bytes, node.text.as_str().as_bytes())?;
    add_length(bytes, node.kids.len())?;
    for kid in node.kids.as_slice() {
        add_tree(bytes, kid, look)?;
    }
    Ok(())
}
