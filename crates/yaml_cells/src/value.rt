//! Values.

use node_tree::{List, Text};

/// A value of a YAML text.
#[derive(Drop)]
pub enum YValue {
    /// Nothing is written.
    Null,
    /// A plain scalar.
    Word(Text),
    /// A quoted scalar or a block scalar.
    Quoted(Text),
    /// A sequence.
    Seq(List<YValue>),
    /// A mapping: each key once, in written order.
    Map(List<(Text, YValue)>),
}
