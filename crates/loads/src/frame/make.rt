ghost use Rattle.std.specs.Prelude.{◌≡◌};
ghost use Rattle.loads.specs.Params.{frame};
ghost use Rattle.loads.specs.Making.{made_frame, frame_made, frame_params};

use super::Frame;
use crate::ranges::check_ranges;
use crate::refusal::Refusal;

impl Frame {
    /// Makes a frame from its numbers, or says which check they fail first.
    pub fn new(cost: u32, deadline: u32, gap: u32) -> Result<Frame, Refusal>
        ensures { frame_made result ≡ made_frame (frame cost deadline gap) }
    {
        check_ranges(cost, gap, deadline)?;
        Ok(Frame {
            cost,
            deadline,
            gap,
        })
    }

    /// The frame with the least numbers; it fills the places of a train that are not in use. It is no `Default`, which
    /// everyone could call: there is no frame that one would expect where none is given.
    pub(crate) fn least() -> Frame
        ensures { frame_params result ≡ frame 1 1 1 }
    {
        Frame {
            cost: 1,
            deadline: 1,
            gap: 1,
        }
    }

    /// The cost.
    pub fn cost(&self) -> u32
        ensures { result ≡ self.now.cost }
    {
        self.cost
    }

    /// The deadline, counted from the release.
    pub fn deadline(&self) -> u32
        ensures { result ≡ self.now.deadline }
    {
        self.deadline
    }

    /// The gap to the next release.
    pub fn gap(&self) -> u32
        ensures { result ≡ self.now.gap }
    {
        self.gap
    }
}
