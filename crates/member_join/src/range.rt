//! Ranges that meet.

ghost use Rattle.std.specs.Prelude.{◌≡◌, ◌↔◌, ◌≤◌, IsTrue};
ghost use Rattle.member_join.specs.Joins.{meet as shared, same_range};
ghost use Rattle.member_join.specs.Ranges.{IsWithin, ShareByte};

use node_tree::Span;

/// The bytes that two ranges share. Where they share none it begins after or at its end.
pub fn meet(a: Span, b: Span) -> Span
    ensures { result ≡ shared a b }
{
    Span {
        from: a.from.max(b.from),
        to: a.to.min(b.to),
    }
}

/// Whether the bytes that the ranges share end no earlier than they begin: the ranges overlap, or one ends where the other
/// begins.
pub fn touches(a: Span, b: Span) -> bool
    ensures { IsTrue result ↔ ((shared a b).from ≤ (shared a b).to) }
{
    a.from.max(b.from) <= a.to.min(b.to)
}

/// Whether a byte lies in both ranges.
pub fn shares_byte(a: Span, b: Span) -> bool
    ensures { IsTrue result ↔ ShareByte a b }
{
    a.from.max(b.from) < a.to.min(b.to)
}

/// Whether the ranges are one.
pub fn is_equal(a: Span, b: Span) -> bool
    ensures { result ≡ same_range a b }
{
    a.from == b.from && a.to == b.to
}

/// Whether the first range lies in the second.
pub fn lies_in(a: Span, b: Span) -> bool
    ensures { IsTrue result ↔ IsWithin a b }
{
    b.from <= a.from && a.to <= b.to && a.from <= a.to
}
