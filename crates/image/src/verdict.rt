ghost use Rattle.std.specs.Prelude.{◌≡◌, ℕ, [], take, Ok};
ghost use Rattle.loads.specs.Channels.{blank};
ghost use Rattle.loads.specs.Train.{frames_of, train_meaning};
ghost use Rattle.format.specs.Fills.{admitted_to, KeptAgain};
ghost use Rattle.image.specs.declared.outcome.Outcome.TheVariants.{Yes as yes};
ghost use Rattle.image.specs.Verdict.{judged, told, code_of, YesMeans};
ghost use Rattle.image.specs.Whole.{records_of};

use crate::check::{Checked, check};
use crate::outcome::Outcome;
use format::fault::PlanFault;
use judge::walk::judge;
use loads::train::RampTrain;
use plan::plan::Plan;

/// How many bytes of an image the entry for C looks at: the first 4,096. The other calls look at all bytes given.
pub const LIMIT: usize = 4096;

/// Admits the tasks of a checked image into a new plan over a train. It is a function of its own, since within
/// `judge_image` the compiler zeroes the plan twice.
fn admit_over(checked: &Checked, train: RampTrain) -> Result<Option<u64>, PlanFault>
    ensures says { result ≡ (admitted_to (train_meaning (frames_of train)) (records_of checked.now) blank).0 }
    ensures kept { KeptAgain (train_meaning (frames_of train)) [] (admitted_to (train_meaning (frames_of train)) (records_of checked.now) blank).1 }
{
    let mut plan = Plan::make(train);
    checked.admit_to(&mut plan)
}

/// The busy period of the plan that an image holds, in ticks, or the first fault: the image is checked, the train of its
/// frames is judged alone, and then its tasks are admitted into a plan over it.
pub fn judge_image(image: &[u8]) -> Result<u64, PlanFault>
    ensures says { result ≡ judged image.now }
    ensures safe { (w : ℕ) → result ≡ Ok w → YesMeans image.now w }
{
    let checked = check(image)?;
    let train = checked.train();
    let at = checked.first_frame();
    let alone = judge(&train).map_err(|unfit| PlanFault::Refused(unfit.into(), at))?;
    let with_tasks = admit_over(&checked, train)?;
    Ok(with_tasks.unwrap_or(alone))
}

/// The verdict of an image.
pub fn verdict(image: &[u8]) -> Outcome
    ensures says { result ≡ told (judged image.now) }
    ensures safe { (w : ℕ) → result ≡ yes w → YesMeans image.now w }
{
    judge_image(image).into()
}

/// The verdict of the first 4,096 bytes of an image as one number, for a host in C: 0 for yes, 11 for late, else the
/// refusal's number. The crate `image_c` exports it.
pub fn lukwaizo_check(image: &[u8]) -> u32
    ensures { result ≡ code_of (told (judged (take 4096 image.now))) }
{
    verdict(&image[..image.len().min(LIMIT)]).code()
}
