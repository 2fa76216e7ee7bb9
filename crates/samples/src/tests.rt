use crate::idle::Idle;
use judge::look::audit;
use judge::walk::judge;
use loads::entry::Entry;
use loads::refusal::Refusal;
use loads::table::{Table, TaskTable};
use loads::task::Task;
use plan::call::{Answer, Call, Done};
use plan::plan::Plan;
use std::process::Abort;
use std::test::Fail;
use theory::load::Load;

/// Cost, period, deadline, jitter and section of a task.
type Numbers = (u32, u32, u32, u32, u32);

/// The label `a`.
const LABEL: [u8; 16] = [b'a', 0, 0, 0, 0, 0, 0, 0, 0, 0, 0, 0, 0, 0, 0, 0];

/// The letters `a` and `b` with a zero between them: no label.
const GAP: [u8; 16] = [b'a', 0, b'b', 0, 0, 0, 0, 0, 0, 0, 0, 0, 0, 0, 0, 0];

/// A label and a task with these numbers.
fn entry(label: [u8; 16], numbers: Numbers) -> Result<Entry, Refusal> {
    let (cost, period, deadline, jitter, section) = numbers;
    let task = Task::new(cost, period, deadline, jitter, section)?;
    Ok(Entry { label, task })
}

/// A table with these tasks, from channel 0 on.
fn table_of(tasks: &[Numbers]) -> Result<TaskTable, Refusal> {
    let mut table = Table::new();
    for (channel, numbers) in (0..=u8::MAX).zip(tasks) {
        table.put(channel, Some(entry(LABEL, *numbers)?))?;
    }
    Ok(table)
}

/// Checks that judge and audit both give this verdict.
fn both_say<L: Load>(rt: &impl Abort, load: &L, verdict: Result<u64, Refusal>) {
    assert_eq!(rt; judge(load).map_err(Refusal::from), verdict);
    assert_eq!(rt; audit(load).map_err(Refusal::from), verdict, "by audit");
}

/// What an answer says, in a word, or the refusal: the expected answers below are written so.
fn said(answer: Answer) -> Result<&'static str, Refusal> {
    answer.map(|done| match done {
        Done::Granted => "granted",
        Done::Retired => "retired",
        Done::Found(_) => "found",
    })
}

/// Loads without work, and tables of one and two tasks; those of docs/MODEL.md are among them.
#[test]
fn verdicts(rt: HostRuntime) -> Result<(), Fail> {
    both_say(&rt, &Idle::new(), Ok(0));
    both_say(&rt, &table_of(&[])?, Ok(0));
    both_say(&rt, &table_of(&[(2, 5, 4, 0, 0)])?, Ok(2));
    both_say(&rt, &table_of(&[(2, 5, 4, 0, 0), (4, 10, 7, 1, 2)])?, Ok(8));
    both_say(
        &rt,
        &table_of(&[(2, 5, 4, 0, 0), (4, 10, 7, 1, 3)])?,
        Err(Refusal::Late((4, 5))),
    );
    both_say(&rt, &table_of(&[(10, 10, 10, 0, 0)])?, Ok(10));
    both_say(
        &rt,
        &table_of(&[(10, 10, 9, 0, 0)])?,
        Err(Refusal::Late((9, 10))),
    );
    both_say(
        &rt,
        &table_of(&[(10, 10, 25, 5, 0)])?,
        Err(Refusal::NotClosed),
    );
    Ok(())
}

/// Six tasks with jitter and sections.
#[test]
fn six_tasks(rt: HostRuntime) -> Result<(), Fail> {
    let table = table_of(&[
        (7, 60, 37, 6, 2),
        (19, 160, 70, 18, 9),
        (60, 380, 280, 30, 18),
        (47, 460, 590, 40, 14),
        (53, 510, 320, 37, 16),
        (70, 490, 360, 46, 13),
    ])?;
    both_say(&rt, &table, Ok(329));
    Ok(())
}

/// A busy period that closes at the last tick where it may, and one that does not.
#[test]
fn longest(rt: HostRuntime) -> Result<(), Fail> {
    let half = (390_625, 781_250, 781_250, 0, 0);
    let closed = table_of(&[half, (128, 256, 256, 0, 0)])?;
    assert_eq!(rt; judge(&closed).map_err(Refusal::from), Ok(100_000_000));
    let open = table_of(&[half, (129, 258, 258, 0, 0)])?;
    assert_eq!(rt;
        judge(&open).map_err(Refusal::from),
        Err(Refusal::NotClosed)
    );
    Ok(())
}

/// Thirteen calls and their answers. There is one place more, which keeps what stood in it.
#[test]
fn calls(rt: HostRuntime) -> Result<(), Fail> {
    let first = entry(LABEL, (2, 5, 4, 0, 0))?;
    let late = entry(LABEL, (4, 10, 7, 1, 3))?;
    let fits = entry(LABEL, (4, 10, 7, 1, 2))?;
    let open = entry(LABEL, (10, 10, 25, 5, 0))?;
    let unnamed = entry(GAP, (2, 5, 4, 0, 0))?;
    let calls = [
        Call::Admit(0, first),
        Call::Admit(1, late),
        Call::Admit(1, fits),
        Call::Admit(1, fits),
        Call::Admit(3, open),
        Call::Replace(2, fits),
        Call::Replace(1, late),
        Call::Retire(0),
        Call::Replace(1, late),
        Call::Read(0),
        Call::Read(1),
        Call::Retire(64),
        Call::Admit(64, unnamed),
    ];
    let expected: [Result<&'static str, Refusal>; 14] = [
        Ok("granted"),
        Err(Refusal::Late((4, 5))),
        Ok("granted"),
        Err(Refusal::ChannelFilled),
        Err(Refusal::NotClosed),
        Err(Refusal::ChannelEmpty),
        Err(Refusal::Late((4, 5))),
        Ok("retired"),
        Ok("granted"),
        Err(Refusal::ChannelEmpty),
        Ok("found"),
        Err(Refusal::NoChannel),
        Err(Refusal::BadLabel),
        Ok("retired"),
    ];
    let mut plan = Plan::make(Idle::new());
    let mut answers = [Ok(Done::Retired); 14];
    assert_eq!(rt; plan.carry_out(&calls, &mut answers), 13);
    assert_eq!(rt; answers.map(said), expected);
    assert_eq!(rt; plan.find(&LABEL), Some(1));
    assert_eq!(rt; plan.find(&GAP), None);
    assert_eq!(rt; plan.read(1)?.task.section(), 3);
    Ok(())
}

/// A plan over a plan, whose task counts beside its own.
#[test]
fn a_plan_as_guest(rt: HostRuntime) -> Result<(), Fail> {
    let mut inner = Plan::make(Idle::new());
    inner.admit(0, entry(LABEL, (2, 5, 4, 0, 0))?)?;
    let mut outer = Plan::make(inner);
    let late = outer.admit(0, entry(LABEL, (4, 10, 7, 1, 3))?);
    assert_eq!(rt; late, Err(Refusal::Late((4, 5))));
    outer.admit(0, entry(LABEL, (4, 10, 7, 1, 2))?)?;
    both_say(&rt, &outer, Ok(8));
    Ok(())
}

/// Several tasks admitted by one call: none, three, up to one that is late, and up to one with a bad label.
#[test]
fn several(rt: HostRuntime) -> Result<(), Fail> {
    let entries = [
        (5, entry(LABEL, (1, 10, 6, 0, 0))?),
        (3, entry(LABEL, (2, 10, 6, 0, 0))?),
        (9, entry(LABEL, (3, 10, 6, 0, 0))?),
        (0, entry(LABEL, (4, 10, 8, 0, 0))?),
        (1, entry(GAP, (1, 10, 10, 0, 0))?),
    ];
    let mut three = Plan::make(Idle::new());
    assert_eq!(rt; three.admit_all(&[]), Ok(None));
    assert_eq!(rt; three.admit_all(&entries[..3]), Ok(Some(6)));
    assert_eq!(rt; three.admit_all(&entries), Err((0, Refusal::ChannelFilled)));

    // With the fourth, 10 ticks of work are due within 8. The fifth is not reached.
    let mut up_to_late = Plan::make(Idle::new());
    assert_eq!(rt;
        up_to_late.admit_all(&entries),
        Err((3, Refusal::Late((8, 10))))
    );
    assert_eq!(rt; up_to_late.read(5)?.task.cost(), 1);
    assert_eq!(rt; up_to_late.read(3)?.task.cost(), 2);
    assert_eq!(rt; up_to_late.read(9)?.task.cost(), 3);
    assert_eq!(rt; up_to_late.read(0).err(), Some(Refusal::ChannelEmpty));
    both_say(&rt, &up_to_late, Ok(6));

    let mut up_to_label = Plan::make(Idle::new());
    let labels = [entries[0], entries[4], entries[3]];
    assert_eq!(rt; up_to_label.admit_all(&labels), Err((1, Refusal::BadLabel)));
    assert_eq!(rt; up_to_label.read(5)?.task.cost(), 1);
    both_say(&rt, &up_to_label, Ok(1));
    Ok(())
}

/// Several tasks over a guest that needs 5 ticks within 4, which is late whatever stands beside it.
#[test]
fn several_over_a_late_guest(rt: HostRuntime) -> Result<(), Fail> {
    let entries = [
        (5, entry(LABEL, (1, 10, 6, 0, 0))?),
        (3, entry(LABEL, (2, 10, 6, 0, 0))?),
        (9, entry(LABEL, (3, 10, 6, 0, 0))?),
    ];
    let mut plan = Plan::make(table_of(&[(5, 10, 4, 0, 0)])?);
    assert_eq!(rt; plan.admit_all(&[]), Ok(None));
    assert_eq!(rt; plan.admit_all(&entries), Err((0, Refusal::Late((4, 5)))));
    assert_eq!(rt; plan.read(5).err(), Some(Refusal::ChannelEmpty));
    Ok(())
}
