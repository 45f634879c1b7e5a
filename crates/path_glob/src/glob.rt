//! Globs of paths.

ghost use Rattle.std.specs.Prelude.{◌≡◌, ◌↔◌, IsTrue, Contains, Any};
ghost use Rattle.path_glob.specs.Segments.{segments, segments_left, without_first, without_last};
ghost use Rattle.path_glob.specs.Glob.{StandsForSegments, Anything, FitsSegment, FitsFront};
ghost use Rattle.path_glob.specs.Fitting.{FitsLater};
ghost use Rattle.path_glob.specs.Fronts.{IsFront};

use crate::front::Front;
use crate::name::fits;
use crate::segments::{first_segment, without_first, without_last};

/// The segments up to the next `**`.
fn front<'g, 's>(
    globs: Option<&'g str>,
    segments: Option<&'s str>,
) -> Front<Option<&'g str>, Option<&'s str>>
    ensures { IsFront segments_left segments_left StandsForSegments Anything (segments_left globs.entry) (segments_left segments.entry) result }
{
    let mut globs = globs;
    let mut left = segments;
    'globs: while let Some((glob, more)) = first_segment(globs) {
        if glob == "**" {
            return Front::Run(more, left);
        }
        let Some((segment, rest)) = first_segment(left) else {
            return Front::Miss;
        };
        if !fits(glob, segment) {
            return Front::Miss;
        }
        globs = more;
        left = rest;
    }
    Front::Whole
}

/// Whether the segments of a glob fit the segments of a path from some place on.
fn fits_later(globs: Option<&str>, segments: Option<&str>) -> bool
    ensures { IsTrue result ↔ FitsLater StandsForSegments Anything (segments_left globs.entry) (segments_left segments.entry) }
{
    let mut globs = globs;
    let mut left = segments;
    'places: loop {
        match front(globs, left) {
            Front::Whole => return true,
            Front::Run(more, rest) => {
                globs = more;
                left = rest;
            }
            Front::Miss => {
                let Some((_, rest)) = first_segment(left) else {
                    return false;
                };
                left = rest;
            }
        }
    }
}

/// Whether the segments of a glob fit the segments of a path, or a leading run of them.
fn fits_front(glob: &str, path: &str) -> bool
    ensures { IsTrue result ↔ FitsFront (segments glob.now) (segments path.now) }
{
    match front(Some(glob), Some(path)) {
        Front::Whole => true,
        Front::Run(more, rest) => fits_later(more, rest),
        Front::Miss => false,
    }
}

/// Whether a glob without a slash fits some segment of a path.
fn fits_some(glob: &str, path: &str) -> bool
    ensures { IsTrue result ↔ Any (FitsSegment glob.now) (segments path.now) }
{
    let mut left = Some(path);
    'segments: while let Some((segment, rest)) = first_segment(left) {
        if fits(glob, segment) {
            return true;
        }
        left = rest;
    }
    false
}

/// Whether a glob matches a path. A glob without a slash matches where it fits some segment of the path. Another one is
/// taken without a slash at its start and without one at its end, and matches where its segments fit the path's, or a
/// leading run of them: so a folder's glob matches each file below it.
///
/// In a segment `*` stands for any run of characters and `?` for one character, not one byte. The segment `**` of a glob
/// that has a slash stands for any run of segments, an empty one too. Any other character stands for itself.
pub fn matches(glob: &str, path: &str) -> bool
    ensures somewhere { (Contains glob.now 47 → ⊥) → (IsTrue result ↔ Any (FitsSegment glob.now) (segments path.now)) }
    ensures from_the_root { Contains glob.now 47 → (IsTrue result ↔ FitsFront (segments (without_last (without_first glob.now))) (segments path.now)) }
{
    if glob.contains('/') {
        return fits_front(without_last(without_first(glob)), path);
    }
    fits_some(glob, path)
}
