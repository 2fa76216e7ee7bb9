ghost use Rattle.loads.specs.Statements.{TasksLawful, NoTasks, TasksBeside, MarksAre, TrainLawful, EmptiedKeeps};
ghost use Rattle.loads.specs.Cases.{Cases};

use theory::load::Load;

/// Tasks keep the laws of a load and stand side by side, and a task's marks are the ticks kT + D − J.
pub fn tasks_are_lawful()
    ensures lawful { TasksLawful }
    ensures none { NoTasks }
    ensures more { TasksBeside }
    ensures marks { MarksAre }
{}

/// A train keeps the laws of a load.
pub fn train_is_lawful()
    ensures { TrainLawful }
{}

/// A table that is accepted beside a guest stays so when one of its channels is emptied.
pub fn emptied_channel_keeps<G: Load>(guest: &G)
    ensures { EmptiedKeeps (G.Load.meaning guest.now) }
{}

/// Worked cases: the busy period and both verdicts of small loads.
pub fn worked_cases_hold()
    ensures { Cases }
{}
