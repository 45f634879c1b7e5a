//! How far a value has come: whether a quote or a flow sequence is open.

ghost use Rattle.std.specs.Prelude.{◌≡◌, ◌^◌, ◌<◌, ◌≤◌, ◌+◌, slice_index, length};
ghost use Rattle.yaml_lines.specs.Blanks.{is_blank as blank};
ghost use Rattle.yaml_lines.specs.Scan as spec;

/// Where in a value the next byte stands.
#[derive(Clone, Copy, Debug, PartialEq, Eq)]
pub enum Place {
    /// Where a scalar or a flow sequence may begin.
    Begin,
    /// After the first byte of a plain scalar, or after a scalar or a sequence that has ended.
    Inside,
    /// Between single quotes.
    Single,
    /// After a quote that ends the scalar, or is the first of two that stand for one.
    SingleEnd,
    /// Between double quotes.
    Double,
    /// After a backslash between double quotes.
    Escape,
}

/// A place in a value, and how many flow sequences are open there.
#[derive(Clone, Copy, Debug, PartialEq, Eq)]
pub struct Scan {
    pub place: Place,
    pub depth: u64,
}

/// Whether a byte is a space or a tab.
pub fn is_blank(byte: u8) -> bool
    ensures { result ≡ blank byte }
{
    byte == b' ' || byte == b'\t'
}

/// The place after a byte that stands where no scalar may begin.
fn after_inside(depth: u64, byte: u8) -> Scan
    ensures { result ≡ spec.after_inside depth byte }
{
    if depth == 0 {
        return Scan {
            place: Place::Inside,
            depth,
        };
    }
    match byte {
        b',' => Scan {
            place: Place::Begin,
            depth,
        },
        b']' => Scan {
            place: Place::Inside,
            depth: depth - 1,
        },
        _ => Scan {
            place: Place::Inside,
            depth,
        },
    }
}

/// The place after a byte that stands where a scalar may begin.
fn after_begin(depth: u64, byte: u8) -> Scan
    requires { depth + 1 < 2 ^ 64 }
    ensures { result ≡ spec.after_begin depth byte }
{
    if is_blank(byte) {
        return Scan {
            place: Place::Begin,
            depth,
        };
    }
    match byte {
        b'[' => Scan {
            place: Place::Begin,
            depth: depth + 1,
        },
        b'\'' => Scan {
            place: Place::Single,
            depth,
        },
        b'"' => Scan {
            place: Place::Double,
            depth,
        },
        _ => after_inside(depth, byte),
    }
}

/// The place after one more byte.
pub fn after(scan: Scan, byte: u8) -> Scan
    requires { scan.depth + 1 < 2 ^ 64 }
    ensures next { result ≡ spec.after scan byte }
    ensures depth { result.depth ≤ scan.depth + 1 }
{
    let depth = scan.depth;
    match scan.place {
        Place::Begin => after_begin(depth, byte),
        Place::Inside => after_inside(depth, byte),
        Place::Single => Scan {
            place: if byte == b'\'' {
                Place::SingleEnd
            } else {
                Place::Single
            },
            depth,
        },
        Place::SingleEnd => {
            if byte == b'\'' {
                Scan {
                    place: Place::Single,
                    depth,
                }
            } else {
                after_inside(depth, byte)
            }
        }
        Place::Double => {
            if byte == b'\\' {
                Scan {
                    place: Place::Escape,
                    depth,
                }
            } else if byte == b'"' {
                Scan {
                    place: Place::Inside,
                    depth,
                }
            } else {
                Scan {
                    place: Place::Double,
                    depth,
                }
            }
        }
        Place::Escape => Scan {
            place: Place::Double,
            depth,
        },
    }
}

/// The place at the start of the next line.
pub fn next_line(scan: Scan) -> Scan
    ensures { result ≡ spec.next_line scan }
{
    let depth = scan.depth;
    match scan.place {
        Place::SingleEnd => Scan {
            place: Place::Inside,
            depth,
        },
        Place::Escape => Scan {
            place: Place::Double,
            depth,
        },
        place => Scan { place, depth },
    }
}

/// Whether a quote or a flow sequence is open at the end of a line.
pub fn is_open(scan: Scan) -> bool
    ensures { result ≡ spec.is_open scan }
{
    scan.depth > 0 || matches!(scan.place, Place::Single | Place::Double | Place::Escape)
}

/// Whether a byte begins a comment, where `gap` says whether a blank or nothing stands before it.
pub fn begins_comment(gap: bool, place: Place, byte: u8) -> bool
    ensures { result ≡ spec.begins_comment gap place byte }
{
    gap && byte == b'#' && matches!(place, Place::Begin | Place::Inside)
}

/// What is found on a line: the place at its end, how many bytes stand before its comment, and whether it has one.
#[derive(Clone, Copy, Debug, PartialEq, Eq)]
pub struct Scanned {
    pub scan: Scan,
    pub len: usize,
    pub comment: bool,
}

/// Scans a line from a place on. A `#` at the start or after a blank begins a comment, unless it is quoted.
pub fn scan_line(start: Scan, line: &[u8]) -> Scanned
    requires { start.depth < 2 ^ 63 }
    ensures scanned { result ≡ spec.scan_line start line.now }
    ensures within { result.len ≤ length line.now }
    ensures comment { result.len < length line.now → slice_index line.now result.len ≡ 35 }
    ensures depth { result.scan.depth ≤ start.depth + length line.now }
{
    let mut scan = start;
    let mut gap = true;
    for (at, byte) in line.iter().enumerate() {
        if begins_comment(gap, scan.place, *byte) {
            return Scanned {
                scan,
                len: at,
                comment: true,
            };
        }
        scan = after(scan, *byte);
        gap = is_blank(*byte);
    }
    Scanned {
        scan,
        len: line.len(),
        comment: false,
    }
}
