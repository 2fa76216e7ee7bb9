ghost use Rattle.std.specs.Prelude.{◌≡◌, ℕ, ◌+◌, ◌-◌, ◌<◌, max, min};
ghost use Rattle.theory.specs.Meaning.{last_mark};
ghost use Rattle.loads.specs.Making.{task_params};
ghost use Rattle.loads.specs.Tasks.{task_due, task_held, task_ready, task_mark};
ghost use Rattle.loads.specs.Steps.{reached, topped, grown};

use super::Task;
use crate::steps::Steps;
use crate::steps::tops::Tops;
use crate::ticks::Ticks;
use theory::rows::ROW;

impl Task {
    /// D − J: the least length within which a job of the task can be released and fall due.
    fn start(&self) -> u64
        ensures { result ≡ self.now.deadline - self.now.jitter }
    {
        u64::from(self.deadline - self.jitter)
    }

    /// The work of the task that can be released and fall due within `t` ticks.
    pub(crate) fn due(&self, t: Ticks) -> u64
        ensures { result ≡ task_due (task_params self.now) t }
    {
        let start = self.start();
        let t = t.count();
        if start <= t {
            u64::from(self.cost) * (1 + (t - start) / u64::from(self.period))
        } else {
            0
        }
    }

    /// The section of the task, if none of its work can fall due within `t` ticks.
    pub(crate) fn held(&self, t: Ticks) -> u64
        ensures { result ≡ task_held (task_params self.now) t }
    {
        if t.count() < self.start() {
            u64::from(self.section)
        } else {
            0
        }
    }

    /// The work of the task that can be released within `s` ticks.
    pub(crate) fn ready(&self, s: Ticks) -> u64
        ensures { result ≡ task_ready (task_params self.now) s }
    {
        let s = s.count();
        if s == 0 {
            return 0;
        }
        u64::from(self.cost) * (s + u64::from(self.jitter)).div_ceil(u64::from(self.period))
    }

    /// The last of the task's marks below `t`.
    pub(crate) fn last_mark(&self, t: Ticks) -> Option<u64>
        ensures { result ≡ last_mark (task_mark (task_params self.now)) t }
    {
        let below = t.count().checked_sub(1)?;
        let past = below.checked_sub(self.start())?;
        Some(below - past % u64::from(self.period))
    }

    /// Adds the task to a row that begins at `from`: at tick t of it, its cost for each of the ticks `first`,
    /// `first` + T, .. up to t + J.
    pub(crate) fn add(&self, from: Ticks, first: u32, steps: &mut Steps)
        ensures { (i : ℕ) → i < 256 → min (reached steps.new.added i) 1099511627776 ≡ min (reached steps.old.added i + grown (task_params self.now) first (from + i)) 1099511627776 }
    {
        steps.add(
            from.count() + u64::from(self.jitter),
            u64::from(first),
            u64::from(self.period),
            u64::from(self.cost),
            ROW,
        );
    }

    /// In a row taken from its end: raises to the section each tick at which it is held.
    pub(crate) fn hold(&self, from: Ticks, tops: &mut Tops)
        ensures { (i : ℕ) → i < 256 → topped tops.new.at (255 - i) ≡ max (topped tops.old.at (255 - i)) (task_held (task_params self.now) (from + i)) }
    {
        let ticks = self.start().saturating_sub(from.count()).min(ROW as u64);
        if ticks > 0 {
            tops.raise_from(ROW - ticks as usize, u64::from(self.section));
        }
    }
}
