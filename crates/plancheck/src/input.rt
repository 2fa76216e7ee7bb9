ghost use Rattle.std.specs.Prelude.{◌≡◌, ◌≤◌, length};

/// What was read of an input: the first `count` of these bytes.
#[derive(Drop)]
pub struct Input {
    bytes: [u8; 4096],
    count: usize,
    ghost places: { length bytes ≡ 4096 },
    ghost room: { count ≤ 4096 },
}

pub mod reading;
