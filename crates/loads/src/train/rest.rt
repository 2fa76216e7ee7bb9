ghost use Rattle.std.specs.Prelude.{◌≡◌};

use crate::frame::Frame;

/// A frame and a number of ticks: what whole rounds leave of a time, or, in `Turns`, after how many ticks from its release
/// the frame counts.
#[derive(Clone, Copy)]
pub(crate) struct FrameRest {
    pub(crate) frame: Frame,
    pub(crate) rest: u64,
}

impl FrameRest {
    /// The least frame without a rest, for the places that are not in use.
    pub(crate) fn least() -> FrameRest {
        FrameRest {
            frame: Frame::least(),
            rest: 0,
        }
    }

    /// Puts this frame and this rest in the place of what stands there; to build a new value and copy it takes longer.
    pub(crate) fn set(&mut self, frame: &Frame, rest: u64)
        ensures { self.new ≡ (record { frame = frame.now; rest = rest }) }
    {
        self.frame = *frame;
        self.rest = rest;
    }
}
