//! The answer.

ghost use Rattle.std.specs.Prelude.{◌*◌, ◌<◌, ◌≤◌, ◌^◌, length};

/// Which names hold which literals before which points.
#[derive(Drop)]
pub struct HeldValues {
    pub points: u32,
    pub names: u32,
    pub values: Vec<u32>,
    pub ghost room: { points * names ≤ length values.items },
    pub ghost small: { length values.items < 2 ^ 32 },
}
