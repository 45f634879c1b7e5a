//! What imports say of names.

ghost use Rattle.std.specs.Prelude.{◌≡◌, ◌++◌, None as none, IfOk, OnOk};
ghost use Rattle.std.specs.List.{flat_map};
ghost use Rattle.import_names.specs.Claims as spec;

use crate::claim::Claim;
use crate::dotted::{add_dotted, first_part};
use crate::ids::{add_plain, id_at};
use node_tree::{Kind, List, Memory, Node, Text, Written};
use std::alloc::Global;

/// Where something is imported from.
#[derive(Drop)]
pub enum Origin<'t> {
    /// It is a module itself.
    Whole,
    /// It is in that module.
    Module(Written<'t>),
    /// It is in a module that is named by where the file stands.
    Relative,
}

// The parts, unless they are more than ten.
fn at_most_ten<'t>(alloc: Global, parts: List<Written<'t>>) -> List<Written<'t>>
    ensures { result ≡ spec.at_most_ten parts.entry }
{
    if parts.len() > 10 {
        return List::new(alloc);
    }
    parts
}

// What is imported under that name stands for these parts.
fn full_name<'t>(
    alloc: Global,
    origin: &Origin<'t>,
    name: &'t str,
) -> Result<List<Written<'t>>, Memory>
    ensures { IfOk result (λ parts. parts ≡ spec.full_name origin.now name.now) }
{
    let mut parts = List::new(alloc);
    match origin {
        Origin::Whole => add_dotted(name, &mut parts)?,
        Origin::Module(source) => {
            add_dotted(source.as_str(), &mut parts)?;
            add_dotted(name, &mut parts)?;
        }
        Origin::Relative => return Ok(parts),
    }
    Ok(at_most_ten(alloc, parts))
}

// Adds what an import without `as` says.
fn add_unnamed<'t>(
    alloc: Global,
    origin: &Origin<'t>,
    name: &'t str,
    into: &mut Vec<Claim<'t>>,
) -> Result<(), Memory>
    ensures { OnOk result (into.new.items ≡
        into.old.items ++ spec.unnamed origin.now name.now) }
{
    if name == "*" {
        return Ok(());
    }
    let first = first_part(name);
    if first != name {
        add_plain(alloc, first, into)?;
        return Ok(());
    }
    let parts = full_name(alloc, origin, name)?;
    into.push(Claim {
        name: Written::new(name),
        parts,
    })?;
    Ok(())
}

// Adds what an import without `as` says, if it says what is imported.
fn add_unbound<'t>(
    alloc: Global,
    origin: &Origin<'t>,
    name: Option<&'t str>,
    into: &mut Vec<Claim<'t>>,
) -> Result<(), Memory>
    ensures { OnOk result (into.new.items ≡
        into.old.items ++ spec.imported origin.now none (spec.seen_text name.entry)) }
{
    match name {
        None => Ok(()),
        Some(name) => add_unnamed(alloc, origin, name, into),
    }
}

// Adds what an import of this says under the name that it binds, if that is said.
fn add_imported<'t>(
    alloc: Global,
    origin: &Origin<'t>,
    bound: Option<&'t str>,
    name: Option<&'t str>,
    into: &mut Vec<Claim<'t>>,
) -> Result<(), Memory>
    ensures { OnOk result (into.new.items ≡
        into.old.items ++ spec.imported origin.now (spec.seen_text bound.entry) (spec.seen_text name.entry)) }
{
    let Some(bound) = bound else {
        return add_unbound(alloc, origin, name, into);
    };
    let Some(name) = name else {
        return add_plain(alloc, bound, into);
    };
    let parts = full_name(alloc, origin, name)?;
    into.push(Claim {
        name: Written::new(bound),
        parts,
    })?;
    Ok(())
}

// Adds what an alias says.
fn add_alias<'t>(
    alloc: Global,
    origin: &Origin<'t>,
    alias: &'t Node,
    into: &mut Vec<Claim<'t>>,
) -> Result<(), Memory>
    ensures { OnOk result (into.new.items ≡
        into.old.items ++ spec.alias_claims origin.now alias.now) }
{
    match alias.kind {
        Kind::Alias => add_imported(alloc, origin, id_at(alias, 1), id_at(alias, 0), into),
        _ => Ok(()),
    }
}

/// Adds what these aliases say.
pub fn add_aliases<'t>(
    alloc: Global,
    origin: &Origin<'t>,
    aliases: &'t [Node],
    into: &mut Vec<Claim<'t>>,
) -> Result<(), Memory>
    ensures { OnOk result (into.new.items ≡
        into.old.items ++ flat_map (spec.alias_claims origin.now) aliases.now) }
{
    for alias in aliases {
        add_alias(alloc, origin, alias, into)?;
    }
    Ok(())
}

/// What a `from` with these dots names.
pub fn origin_of<'t>(dots: &Text, source: Option<&'t str>) -> Origin<'t>
    ensures { result ≡ spec.origin_of dots.now (spec.seen_text source.entry) }
{
    if dots.len() > 0 {
        return Origin::Relative;
    }
    match source {
        Some(source) => Origin::Module(Written::new(source)),
        None => Origin::Relative,
    }
}
