ghost use Rattle.std.specs.Prelude.{◌≡◌, ◌≤◌, length};
ghost use Rattle.loads.specs.Train.{frames_of};

use format::before::Before;
use loads::train::RampTrain;

/// What has been read of an image: how many tasks, and its frames.
#[derive(Drop)]
pub(crate) struct Records {
    before: Before,
    pub(crate) tasks: usize,
    pub(crate) train: RampTrain,
    ghost rising: { tasks ≤ before.least },
    ghost channels: { before.least ≤ 64 },
    ghost frames: { before.frames ≡ length (frames_of train) },
}

mod add;
