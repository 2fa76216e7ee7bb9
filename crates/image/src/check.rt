ghost use Rattle.std.specs.Prelude.{◌≡◌, Ok, length};
ghost use Rattle.loads.specs.Train.{frames_of};
ghost use Rattle.format.specs.Decode.{decode, tasks_in, frames_in};
ghost use Rattle.image.specs.Checked.{records_in};

use loads::train::RampTrain;

/// An image that was read whole without a fault, how many tasks it has, and its frames. Its tasks are taken from it, and
/// then nothing is left to fail.
#[derive(Drop)]
pub struct Checked<'a> {
    image: &'a [u8],
    tasks: usize,
    train: RampTrain,
    ghost read: { decode image.now ≡ Ok (records_in image.now) },
    ghost count: { tasks ≡ length (tasks_in (records_in image.now)) },
    ghost frames: { frames_of train ≡ frames_in (records_in image.now) },
}

mod whole;

pub use whole::check;
