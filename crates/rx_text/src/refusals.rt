//! Lists of refused texts.

ghost use Rattle.std.specs.Prelude.{◌≡◌};
ghost use Rattle.rx_text.specs.Refusals.{ListsFault, times_in};

use crate::patterns::BuildFault;
use node_tree::{List, Text};

// Puts the text at the end of the refused ones, and gives the answer that says so.
pub(crate) fn refuse(refused: &mut List<Text>, text: &str) -> BuildFault
    ensures { ListsFault result text.now refused.old refused.new }
{
    let Ok(text) = Text::from_str(refused.alloc(), text) else {
        return BuildFault::Memory;
    };
    match refused.push(text) {
        Ok(()) => BuildFault::Refused,
        Err(_) => BuildFault::Memory,
    }
}

// How many times the text stands in the list.
pub(crate) fn times_in(texts: &[Text], text: &str) -> usize
    ensures { result ≡ times_in texts.now text.now }
{
    texts.iter().filter(|t| t.as_str() == text).count()
}
