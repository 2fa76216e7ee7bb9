ghost use Rattle.std.specs.Prelude.{◌≡◌, sum_by};
ghost use Rattle.loads.specs.FixedVecs.{items_of};
ghost use Rattle.loads.specs.declared.frame.Frame.{Frame as a_frame};

use crate::fixed_vec::FixedVec;
use crate::frame::Frame;

/// A ramp train of 0 to 16 frames, released one after another in a circle, with the sums of their gaps and costs.
#[derive(Clone, Copy, Drop)]
pub struct RampTrain {
    frames: FixedVec<Frame, 16>,
    round: u64,
    work: u64,
    ghost gaps: { round ≡ sum_by (λ (f : a_frame). f.gap) (items_of frames) },
    ghost costs: { work ≡ sum_by (λ (f : a_frame). f.cost) (items_of frames) },
}

pub mod load;
pub mod make;
mod marks;
mod rest;
mod rows;
mod sums;
mod turns;
mod within;
