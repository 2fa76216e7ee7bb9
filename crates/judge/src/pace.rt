use theory::load::Load;
use theory::rows::ROW;

/// After how many steps a search or a walk looks how far they went.
const STEPS: u64 = 16;

/// How far the steps of a search or a walk go. What it says decides only which of two ways with the same result is taken,
/// so it has no contract.
#[derive(Drop)]
pub(crate) struct Pace {
    /// How far the steps since the last look went.
    gone: u64,

    /// How many they are.
    taken: u64,

    /// After how many the next look comes.
    after: u64,
}

impl Pace {
    /// Before the first step.
    pub(crate) fn new() -> Pace {
        Pace {
            gone: 0,
            taken: 0,
            after: STEPS,
        }
    }

    /// Whether a row would now be faster than steps on this load, after one more step, of `ticks` ticks. That is looked at
    /// after every 16 steps, and after each step while a row was faster. Where a row takes 256 questions, it never is.
    pub(crate) fn is_slow<L: Load>(&mut self, load: &L, ticks: u64) -> bool {
        self.gone = self.gone.saturating_add(ticks);
        self.taken = self.taken.saturating_add(1);
        if self.taken < self.after {
            return false;
        }
        let effort = load.effort();
        let by_row = self.gone.saturating_mul(effort.row);
        let by_steps = self
            .taken
            .saturating_mul(ROW as u64)
            .saturating_mul(effort.question);
        let slow = by_row < by_steps;
        self.gone = 0;
        self.taken = 0;
        self.after = if slow { 1 } else { STEPS };
        slow
    }
}
