//! A part of a text that is lent.

ghost use Rattle.std.specs.Prelude.{◌≡◌};

use std::marker::Model;

/// A part of a text, which contracts see as its bytes.
#[derive(Drop)]
pub struct Written<'t> {
    text: &'t str,
}

impl<'t> Model for Written<'t> {
    ghost use Rattle.std.specs.Prelude.{ℕ, List};

    ghost Value = { List ℕ };

    ghost view = { λ w. w.text.now };
}

impl<'t> Written<'t> {
    /// The part of a text that this is.
    pub fn new(text: &'t str) -> Written<'t>
        ensures { result ≡ text.now }
    {
        Written { text }
    }

    /// The part as std has it.
    pub fn as_str(&self) -> &'t str
        ensures { result.now ≡ self.now }
    {
        self.text
    }
}
