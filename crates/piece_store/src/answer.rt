//! Answers of which most are the same.

ghost use Rattle.std.specs.Prelude.{◌≡◌, ◌↔◌, IsTrue};

/// What a pattern has in a piece. Most patterns have nothing there, which is the empty answer.
pub trait Answer: Drop {
    ghost empty: { Self };

    /// Whether this is the empty answer.
    fn is_empty(&self) -> bool
        ensures { IsTrue result ↔ (self.now ≡ empty) };
}
