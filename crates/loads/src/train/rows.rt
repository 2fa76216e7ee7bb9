ghost use Rattle.std.specs.Prelude.{◌≡◌, ◌≤◌, length};
ghost use Rattle.loads.specs.Making.{frame_params};
ghost use Rattle.loads.specs.Train.{cycle, frames_of};
ghost use Rattle.loads.specs.TrainRows.{lag};

use super::RampTrain;
use super::rest::FrameRest;
use super::turns::Turns;
use crate::frame::Frame;
use crate::ticks::Ticks;
use theory::rows::ROW;

/// Which work of a frame is counted: what is due, from the frame's deadline on, or what is ready, from its release on.
#[derive(Clone, Copy)]
pub(super) enum Counted {
    Due,
    Ready,
}

impl Counted {
    /// How many ticks after its release a frame's work counts.
    fn lag(self, f: &Frame) -> u64
        ensures same { result ≡ lag self (frame_params f.now) }
        ensures near { result ≤ 100000000 }
    {
        match self {
            Counted::Due => u64::from(f.deadline()),
            Counted::Ready => 0,
        }
    }
}

impl RampTrain {
    ghost use Rattle.theory.specs.Rows.{uncut_row};
    ghost use Rattle.loads.specs.Train.{circle_from, largest_of};
    ghost use Rattle.loads.specs.TrainTally.{tally};

    /// The uncut row, from `from` on, of the largest work over the frames that the circle can begin with.
    /// In each whole round from its lag up to `from` a frame counts once, in whichever circle: that work is found here, by
    /// one division for each frame. The row begins with it, and takes each frame as if it counted that many rounds later.
    pub(super) fn row_of(&self, counted: Counted, from: u64) -> [u64; ROW]
        ensures { result ≡ uncut_row (λ t. largest_of (λ k. tally (lag counted) (cycle (frames_of self.now)) t 0 (circle_from k (frames_of self.now))) (length (frames_of self.now))) from }
    {
        let frames = self.frames();
        if frames.is_empty() {
            return [0; ROW];
        }
        let from = Ticks::upto(from).count();
        let round = self.round();
        let mut rests = [FrameRest::least(); 16];
        let mut base = 0;
        for (i, f) in frames.iter().enumerate() {
            let lag = counted.lag(f);
            let turns = from.saturating_sub(lag) / round;
            base += u64::from(f.cost()) * turns;
            // By index: what is written through `iter_mut` a proof does not know afterwards, and a push takes longer.
            rests[i].set(f, lag + turns * round);
        }
        Turns {
            frames: &rests[..frames.len()],
            round,
            from,
            base,
        }
        .most_row()
    }
}
