ghost use Rattle.loads.specs.Train.{frames_of, train_meaning};
ghost use Rattle.loads.specs.TrainRanges.{frames_ranged};
ghost use Rattle.loads.specs.TrainLaws.{train_laws};

use super::RampTrain;
use super::rows::Counted;
use crate::ticks::Ticks;
use theory::limits::CUT;
use theory::load::Load;
use theory::rows::{Effort, ROW, cut_next_row, cut_row, tick_before};

/// A train is a load: each amount is the largest over the frames that the circle can begin with.
impl Load for RampTrain {
    ghost meaning = { λ r. train_meaning (frames_of r) };

    ghost lawful = { λ x. train_laws (frames_of x) (frames_ranged x) };

    fn due(&self, t: u64) -> u64 {
        self.most_due(Ticks::upto(t)).min(CUT)
    }

    #[tactic(auto, unfolding(crate::specs::Train::train_amounts))]
    fn held(&self, t: u64) -> u64 {
        0
    }

    fn ready(&self, s: u64) -> u64 {
        self.most_ready(Ticks::upto(s)).min(CUT)
    }

    fn last_mark(&self, t: u64) -> Option<u64> {
        self.last_below(Ticks::upto(t))
    }

    fn due_row(&self, from: u64) -> [u64; ROW] {
        let mut answers = self.row_of(Counted::Due, from);
        cut_row(&mut answers, from);
        answers
    }

    #[tactic(auto, unfolding(crate::specs::Train::train_amounts, theory::specs::Rows::row))]
    fn held_row(&self, from: u64) -> [u64; ROW] {
        [0; ROW]
    }

    fn ready_row(&self, from: u64) -> [u64; ROW] {
        let mut answers = self.row_of(Counted::Ready, tick_before(from));
        cut_next_row(&mut answers, from);
        answers
    }

    /// In divisions: a question goes over each frame of each circle, and four take as long as a division. A row takes as
    /// long as some 40 for each circle, whose frames are put into it and added up along it.
    fn effort(&self) -> Effort {
        let frames = self.frames().len() as u64;
        Effort {
            question: frames.saturating_mul(frames) / 4 + 4,
            row: frames.saturating_mul(40).saturating_add(100),
        }
    }
}
