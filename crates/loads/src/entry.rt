ghost use Rattle.std.specs.Prelude.{◌≡◌, length};

use crate::task::Task;

/// What stands in a filled channel: sixteen bytes of label, and a task.
#[derive(Clone, Copy)]
pub struct Entry {
    pub label: [u8; 16],
    pub task: Task,
    ghost sixteen: { length label ≡ 16 },
}
