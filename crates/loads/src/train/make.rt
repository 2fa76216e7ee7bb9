ghost use Rattle.std.specs.Prelude.{◌≡◌, ◌≤◌, [], map, length};
ghost use Rattle.loads.specs.Making.{frame_params};
ghost use Rattle.loads.specs.Train.{frames_of, pushed, refilled, made_train, train_made};

use super::RampTrain;
use crate::fixed_vec::FixedVec;
use crate::frame::Frame;
use crate::refusal::Refusal;

impl RampTrain {
    /// A train without frames.
    pub fn new() -> RampTrain
        ensures { frames_of result ≡ [] }
    {
        RampTrain {
            frames: FixedVec::new(Frame::least()),
            round: 0,
            work: 0,
        }
    }

    /// A train of these frames in order; more than sixteen are refused.
    pub fn from_frames(frames: &[Frame]) -> Result<RampTrain, Refusal>
        ensures { train_made result ≡ made_train (map frame_params frames.now) }
    {
        let mut train = RampTrain::new();
        for f in frames {
            train.push(*f)?;
        }
        Ok(train)
    }

    /// The frames of the train, in order.
    pub fn frames(&self) -> &[Frame]
        ensures same { map frame_params result.now ≡ frames_of self.now }
        ensures few { length result.now ≤ 16 }
    {
        self.frames.as_slice()
    }

    /// Adds a frame at the end; a train that holds sixteen refuses and stays as it was.
    pub fn push(&mut self, f: Frame) -> Result<(), Refusal>
        ensures { (result, frames_of self.new) ≡ pushed (frames_of self.old) (frame_params f) }
    {
        self.frames.push(f).map_err(|_| Refusal::TrainFull)?;
        self.round += u64::from(f.gap());
        self.work += u64::from(f.cost());
        Ok(())
    }

    /// Takes all frames out.
    pub fn clear(&mut self)
        ensures { frames_of self.new ≡ [] }
    {
        self.frames.clear();
        self.round = 0;
        self.work = 0;
    }

    /// Replaces what the train holds by these frames; more than sixteen are refused, and the train stays as it was.
    pub fn fill(&mut self, frames: &[Frame]) -> Result<(), Refusal>
        ensures { (result, frames_of self.new) ≡ refilled (frames_of self.old) (map frame_params frames.now) }
    {
        *self = RampTrain::from_frames(frames)?;
        Ok(())
    }
}
