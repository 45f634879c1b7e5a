//! The answer.

ghost use Rattle.std.specs.Prelude.{◌*◌, ◌<◌, ◌≤◌, ◌^◌, length};
ghost use Rattle.flow_reach.specs.Bits.{stride_of};

/// Which facts are carried to which points.
#[derive(Drop)]
pub struct Reached {
    pub points: u32,
    pub facts: u32,
    pub seen: Vec<u64>,
    pub ghost room: { points * stride_of facts ≤ 64 * length seen.items },
    pub ghost small: { length seen.items < 2 ^ 32 },
}
