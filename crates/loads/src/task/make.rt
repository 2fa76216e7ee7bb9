ghost use Rattle.std.specs.Prelude.{◌≡◌};
ghost use Rattle.loads.specs.Params.{task};
ghost use Rattle.loads.specs.Making.{made_task, task_made};

use super::Task;
use crate::ranges::check_ranges;
use crate::refusal::Refusal;

impl Task {
    /// Makes a task from its numbers, or says which check they fail first.
    pub fn new(
        cost: u32,
        period: u32,
        deadline: u32,
        jitter: u32,
        section: u32,
    ) -> Result<Task, Refusal>
        ensures { task_made result ≡ made_task (task cost period deadline jitter section) }
    {
        check_ranges(cost, period, deadline)?;
        if jitter >= period || jitter >= deadline {
            return Err(Refusal::Jitter);
        }
        let section = u16::try_from(section).map_err(|_| Refusal::Section)?;
        if u32::from(section) > cost {
            return Err(Refusal::Section);
        }
        Ok(Task {
            cost,
            period,
            deadline,
            jitter,
            section,
        })
    }

    /// The cost C.
    pub fn cost(&self) -> u32
        ensures { result ≡ self.now.cost }
    {
        self.cost
    }

    /// The period T.
    pub fn period(&self) -> u32
        ensures { result ≡ self.now.period }
    {
        self.period
    }

    /// The deadline D, counted from the arrival.
    pub fn deadline(&self) -> u32
        ensures { result ≡ self.now.deadline }
    {
        self.deadline
    }

    /// The jitter J.
    pub fn jitter(&self) -> u32
        ensures { result ≡ self.now.jitter }
    {
        self.jitter
    }

    /// The longest bus section S.
    pub fn section(&self) -> u16
        ensures { result ≡ self.now.section }
    {
        self.section
    }
}
