ghost use Rattle.std.specs.Prelude.{◌≡◌};
ghost use Rattle.loads.specs.Train.{frames_of};
ghost use Rattle.format.specs.Decode.{decode};
ghost use Rattle.format.specs.Fills.{taken};

use crate::check::check;
use format::fault::RecordFault;
use loads::train::RampTrain;

/// Takes the frames of an image into a train in place of what it held, or refuses and leaves it as it was. The whole
/// image is checked first, and after that nothing is refused.
pub fn take_frames(train: &mut RampTrain, image: &[u8]) -> Result<(), RecordFault>
    ensures { (result, frames_of train.new) ≡ taken (decode image.now) (frames_of train.old) }
{
    *train = check(image)?.train();
    Ok(())
}
