//! The bytes of pieces and patterns, from their keys.

ghost use Rattle.std.specs.Prelude.{◌≡◌, ◌<◌, ℕ, List as list, [], ◌∷◌, ◌++◌, length, OnOk, IfOk};
ghost use Rattle.node_tree.specs.declared.node.Node.{Node as a_node};
ghost use Rattle.node_tree.specs.declared.view.Pattern.{Pattern as a_pattern};
ghost use Rattle.piece_form.specs.declared.piece.Piece.{Piece as a_piece};
ghost use Rattle.tree_code.specs.Code.{number_code, text_code, tree_code};
ghost use Rattle.piece_form.specs.Code.{known_code, pattern_code};
ghost use Rattle.piece_form.specs.Identity.{identity_of};
ghost use Rattle.piece_form.specs.Keys.{IsKeyOf};
ghost use Rattle.store_form.specs.Form.{number_bytes, text_bytes, list_bytes, node_bytes};
ghost use Rattle.sha2.specs.Sha256.{sha256};
ghost use Rattle.store_file.specs.Pieces.{known_bytes, piece_bytes, pattern_bytes};

use crate::digest::Digest;
use node_tree::{Bytes, Memory};
use piece_form::{PatternKey, PieceKey};
use std::alloc::Global;
use store_form::{FormFault, add_length, add_number};
use tree_code::Front;

// Adds bytes behind their number.
fn add_text(out: &mut Bytes, text: &[u8]) -> Result<(), FormFault>
    ensures { OnOk result (out.new ≡ out.old ++ text_bytes text.now) }
{
    add_length(out, text.len())?;
    out.extend(text)?;
    Ok(())
}

// Moves a place from the code of a key.
fn move_place(code: &mut Front<'_>, out: &mut Bytes) -> Result<(), FormFault>
    ensures { (n : ℕ) → (left : list ℕ) → code.old.rest.now ≡ n ∷ left → OnOk result (
        (code.new.rest.now ≡ left) × (out.new ≡ out.old ++ number_bytes n)) }
{
    let place = code.byte()?;
    add_number(out, u32::from(place))
}

// Moves a number.
fn move_number(code: &mut Front<'_>, out: &mut Bytes) -> Result<u32, FormFault>
    ensures { (n : ℕ) → (left : list ℕ) → code.old.rest.now ≡ number_code n ++ left → IfOk result (λ m.
        (m ≡ n) × (code.new.rest.now ≡ left) × (out.new ≡ out.old ++ number_bytes n)) }
{
    let number = code.number()?;
    add_number(out, number)?;
    Ok(number)
}

// Moves what of a node stands before its kids, and gives their number.
fn move_head(code: &mut Front<'_>, out: &mut Bytes) -> Result<u32, FormFault>
    ensures moved { (kind from to kids : ℕ) → (text left : list ℕ) →
        code.old.rest.now ≡ kind ∷ (number_code from ++ (number_code to ++
        (text_code text ++ (number_code kids ++ left)))) →
        IfOk result (λ m. (m ≡ kids) × (code.new.rest.now ≡ left) × (out.new ≡
        out.old ++ (number_bytes kind ++ (text_bytes text ++
        ((number_bytes from ++ number_bytes to) ++ number_bytes kids))))) }
    ensures shorter { OnOk result (length code.new.rest.now < length code.old.rest.now) }
{
    let kind = code.byte()?;
    let from = code.number()?;
    let to = code.number()?;
    let text = code.text()?;
    let kids = code.number()?;
    add_number(out, u32::from(kind))?;
    add_text(out, text)?;
    add_number(out, from)?;
    add_number(out, to)?;
    add_number(out, kids)?;
    Ok(kids)
}

// Moves a tree, node by node.
fn move_tree(code: &mut Front<'_>, out: &mut Bytes) -> Result<(), FormFault>
    ensures { (n : a_node) → (left : list ℕ) → code.old.rest.now ≡ tree_code n ++ left →
        OnOk result ((code.new.rest.now ≡ left) × (out.new ≡ out.old ++ node_bytes n)) }
{
    let mut nodes: u64 = 1;
    while nodes > 0 {
        let kids = move_head(code, out)?;
        let Some(more) = (nodes - 1).checked_add(u64::from(kids)) else {
            return Err(FormFault::Memory);
        };
        nodes = more;
    }
    Ok(())
}

// Moves the known names.
fn move_known(code: &mut Front<'_>, out: &mut Bytes) -> Result<(), FormFault>
    ensures { (ks : list (ℕ × a_node)) → (left : list ℕ) →
        code.old.rest.now ≡ number_code (length ks) ++ (known_code ks ++ left) →
        OnOk result ((code.new.rest.now ≡ left) × (out.new ≡ out.old ++ list_bytes known_bytes ks)) }
{
    let count = move_number(code, out)?;
    for _i in 0..count {
        move_number(code, out)?;
        move_tree(code, out)?;
    }
    Ok(())
}

// The bytes of the piece that has this key.
fn bytes_of_piece(alloc: Global, key: &PieceKey) -> Result<Bytes, FormFault>
    ensures { (p : a_piece) → IsKeyOf p key.now → IfOk result (λ b. b ≡ piece_bytes (identity_of p)) }
{
    let mut out = Bytes::new(alloc);
    let mut code = Front { rest: &key.code };
    move_place(&mut code, &mut out)?;
    add_text(&mut out, key.bytes.as_slice())?;
    move_tree(&mut code, &mut out)?;
    move_known(&mut code, &mut out)?;
    Ok(out)
}

// The bytes of the pattern that has this key.
fn bytes_of_pattern(alloc: Global, key: &PatternKey) -> Result<Bytes, FormFault>
    ensures { (p : a_pattern) → key.now.code.items ≡ pattern_code p →
        IfOk result (λ b. b ≡ pattern_bytes p) }
{
    let mut out = Bytes::new(alloc);
    let mut code = Front { rest: &key.code };
    move_place(&mut code, &mut out)?;
    move_place(&mut code, &mut out)?;
    move_place(&mut code, &mut out)?;
    move_tree(&mut code, &mut out)?;
    Ok(out)
}

impl Digest {
    /// The digest of the bytes of the piece that has this key. `Memory` is also the answer where the piece has more bytes than
    /// the largest `u32`, or the key is that of no piece.
    pub fn of_piece(alloc: Global, key: &PieceKey) -> Result<Digest, Memory>
        ensures { (p : a_piece) → IsKeyOf p key.now →
            IfOk result (λ d. d.bytes ≡ sha256 (piece_bytes (identity_of p))) }
    {
        match bytes_of_piece(alloc, key) {
            Ok(bytes) => Ok(Digest::of(bytes.as_slice())),
            Err(_) => Err(Memory),
        }
    }

    /// The digest of the bytes of the pattern that has this key. `Memory` is also the answer where the key is that of no
    /// pattern.
    pub fn of_pattern(alloc: Global, key: &PatternKey) -> Result<Digest, Memory>
        ensures { (p : a_pattern) → key.now.code.items ≡ pattern_code p →
            IfOk result (λ d. d.bytes ≡ sha256 (pattern_bytes p)) }
    {
        match bytes_of_pattern(alloc, key) {
            Ok(bytes) => Ok(Digest::of(bytes.as_slice())),
            Err(_) => Err(Memory),
        }
    }
}
