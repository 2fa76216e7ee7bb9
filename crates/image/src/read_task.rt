ghost use Rattle.std.specs.Prelude.{◌≡◌};
ghost use Rattle.loads.specs.Params.{TaskRanges};
ghost use Rattle.loads.specs.Making.{made_task, task_made};
ghost use Rattle.plan.specs.Admissions.{placed};
ghost use Rattle.format.specs.Records.{params_in, task_in};

use crate::read::{field, number};
use format::part::TASK;
use loads::entry::Entry;
use loads::refusal::Refusal;
use loads::task::Task;

/// The task in a record, or why it is not made. For a `TryFrom` the bytes would need a type of their own, since neither
/// they nor the task belong to this crate.
pub(crate) fn made_task(bytes: &[u8; TASK]) -> Result<Task, Refusal>
    ensures { task_made result ≡ made_task (params_in bytes.now) }
{
    Task::new(
        number(bytes, 19),
        number(bytes, 23),
        number(bytes, 27),
        number(bytes, 31),
        u32::from(u16::from_be_bytes(field(bytes, 35))),
    )
}

/// What a record holds whose numbers are in range: a channel, and label and task for it. The ranges are shown to the
/// check, so that they are not looked at again.
pub(crate) fn entry_in(bytes: &[u8; TASK]) -> (u8, Entry)
    requires { TaskRanges (params_in bytes.now) }
    ensures { placed result ≡ task_in bytes.now }
{
    let task = Task {
        cost: number(bytes, 19),
        period: number(bytes, 23),
        deadline: number(bytes, 27),
        jitter: number(bytes, 31),
        section: u16::from_be_bytes(field(bytes, 35)),
    };
    let label = field(bytes, 2);
    (bytes[18], Entry { label, task })
}
