ghost use Rattle.loads.specs.Channels.{table, channels, slot_params};
ghost use Rattle.loads.specs.Ranged.{table_laws};

use super::{Slot, Table};
use crate::places::{Place, largest, latest, total, uncut_held_row, uncut_row};
use crate::task::Task;
use crate::ticks::Ticks;
use theory::load::Load;
use theory::rows::{Effort, ROW, cut_next_row, cut_row, tick_before};

/// A channel is a place in which a task can stand.
impl Place for Slot {
    ghost stands = { slot_params };

    fn task(&self) -> Option<&Task> {
        self.held.as_ref().map(|entry| &entry.task)
    }
}

/// A table is a load: its tasks side by side.
impl Load for Table<Slot> {
    ghost meaning = { λ t. table (channels t) };

    ghost lawful = { λ x. table_laws x };

    fn due(&self, t: u64) -> u64 {
        let t = Ticks::upto(t);
        total(&self.slots, |task| task.due(t))
    }

    fn held(&self, t: u64) -> u64 {
        let t = Ticks::upto(t);
        largest(&self.slots, |task| task.held(t))
    }

    fn ready(&self, s: u64) -> u64 {
        let s = Ticks::upto(s);
        total(&self.slots, |task| task.ready(s))
    }

    fn last_mark(&self, t: u64) -> Option<u64> {
        let t = Ticks::upto(t);
        latest(&self.slots, |task| task.last_mark(t))
    }

    /// Counted from the first arrival, jobs fall due at D, D + T, ..
    fn due_row(&self, from: u64) -> [u64; ROW] {
        let mut answers = uncut_row(&self.slots, from, |task| task.deadline());
        cut_row(&mut answers, from);
        answers
    }

    fn held_row(&self, from: u64) -> [u64; ROW] {
        let mut answers = uncut_held_row(&self.slots, from);
        cut_row(&mut answers, from);
        answers
    }

    /// Counted from the first arrival, jobs are released at 0, T, .., and t + 1 ticks have what is released up to tick t.
    fn ready_row(&self, from: u64) -> [u64; ROW] {
        let mut answers = uncut_row(&self.slots, tick_before(from), |_| 0);
        cut_next_row(&mut answers, from);
        answers
    }

    /// In divisions: a question looks at 64 slots, which takes as long as 10, and divides once for each task. A row takes as
    /// long as 128, for its 256 places and the jobs that come within them, and 2 for each task. To count the tasks takes
    /// less time than a question, and this is asked once in 16 steps, or beside a row.
    fn effort(&self) -> Effort {
        let filled = self.slots.iter().filter(|slot| slot.held.is_some());
        let tasks = filled.count() as u64;
        Effort {
            question: tasks.saturating_add(10),
            row: tasks.saturating_mul(2).saturating_add(128),
        }
    }
}
