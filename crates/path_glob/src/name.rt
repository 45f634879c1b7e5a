//! Globs of one segment.

ghost use Rattle.std.specs.Prelude.{◌≡◌, ◌⊎◌, ◌↔◌, IsTrue};
ghost use Rattle.std.specs.Str.{chars};
ghost use Rattle.path_glob.specs.Glob.{StandsForChars, AtEnd, FitsSegment};
ghost use Rattle.path_glob.specs.Fitting.{FitsLater};
ghost use Rattle.path_glob.specs.Fronts.{IsFront};

use crate::front::Front;
use crate::segments::first_char;

/// Whether a sign other than `*` stands for this character.
fn stands_for(sign: char, c: char) -> bool
    ensures { IsTrue result ↔ ((sign ≡ 63) ⊎ (sign ≡ c)) }
{
    sign == '?' || sign == c
}

/// The signs up to the next `*`.
fn front<'g, 's>(glob: &'g str, segment: &'s str) -> Front<&'g str, &'s str>
    ensures { IsFront (λ g. chars g.now) (λ s. chars s.now) StandsForChars AtEnd (chars glob.now) (chars segment.now) result }
{
    let mut glob = glob;
    let mut segment = segment;
    'signs: while let Some((sign, signs)) = first_char(glob) {
        if sign == '*' {
            return Front::Run(signs, segment);
        }
        let Some((c, rest)) = first_char(segment) else {
            return Front::Miss;
        };
        if !stands_for(sign, c) {
            return Front::Miss;
        }
        glob = signs;
        segment = rest;
    }
    if segment.is_empty() {
        Front::Whole
    } else {
        Front::Miss
    }
}

/// Whether the signs fit the segment from some place on.
fn fits_later(glob: &str, segment: &str) -> bool
    ensures { IsTrue result ↔ FitsLater StandsForChars AtEnd (chars glob.now) (chars segment.now) }
{
    let mut glob = glob;
    let mut segment = segment;
    'places: loop {
        match front(glob, segment) {
            Front::Whole => return true,
            Front::Run(signs, rest) => {
                glob = signs;
                segment = rest;
            }
            Front::Miss => {
                let Some((_, rest)) = first_char(segment) else {
                    return false;
                };
                segment = rest;
            }
        }
    }
}

/// Whether a glob of one segment fits a segment.
pub fn fits(glob: &str, segment: &str) -> bool
    ensures { IsTrue result ↔ FitsSegment glob.now segment.now }
{
    match front(glob, segment) {
        Front::Whole => true,
        Front::Run(signs, rest) => fits_later(signs, rest),
        Front::Miss => false,
    }
}
