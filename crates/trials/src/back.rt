use format::fault::PlanFault;
use format::part::{FRAME, TASK};
use image::fill::fill;
use image::frames::take_frames;
use image::write::write;
use loads::train::RampTrain;
use plan::plan::Plan;

/// How many bytes the largest image takes: 64 tasks, 16 frames, the end mark.
const LARGEST: usize = 64 * TASK + 16 * FRAME + 2;

/// Fills a new plan with an image and writes the plan again: whether the bytes are the same, or the fault where the
/// image or a task of it is refused.
pub(crate) fn comes_back(image: &[u8]) -> Result<bool, PlanFault> {
    let mut train = RampTrain::new();
    take_frames(&mut train, image)?;
    let mut plan = Plan::make(train);
    fill(&mut plan, image)?;
    // An array, since `write` takes a lent buffer.
    let mut out = [0u8; LARGEST];
    Ok(write(&plan, &train, &mut out).is_ok_and(|n| out.get(..n) == Some(image)))
}
