//! A goal of a sink.

/// The sink with that place is hit where a path carries the fact to the point.
#[derive(Clone, Copy)]
pub struct Goal {
    pub sink: u64,
    pub point: u32,
    pub fact: u32,
}
