ghost use Rattle.std.specs.Prelude.{◌≡◌, ◌<◌, ◌≤◌, ◌*◌, List, None, map, take, drop, slice_index_or};
ghost use Rattle.loads.specs.Channels.{blank};
ghost use Rattle.loads.specs.Train.{frames_of};
ghost use Rattle.plan.specs.declared.call.Call.{Call as a_call};
ghost use Rattle.plan.specs.Ledger.{ledger, after, guest};
ghost use Rattle.plan.specs.Admissions.{placed, in_turn};
ghost use Rattle.format.specs.Decode.{decode, tasks_in, frames_in};
ghost use Rattle.format.specs.Fills.{admitted_to, KeptAgain};
ghost use Rattle.image.specs.Verdict.{first_frame};
ghost use Rattle.image.specs.Whole.{records_of, read_whole};

use super::Checked;
use crate::parts::Parts;
use crate::read::chunk;
use crate::read_task::entry_in;
use crate::records::Records;
use format::fault::{PlanFault, RecordFault};
use format::part::TASK;
use loads::entry::Entry;
use loads::refusal::Refusal;
use loads::train::RampTrain;
use plan::plan::Plan;
use theory::load::Load;

/// Reads the whole image, record by record: its records, or the first fault.
pub fn check<'a>(image: &'a [u8]) -> Result<Checked<'a>, RecordFault>
    ensures { read_whole result ≡ decode image.now }
{
    let mut records = Records::new();
    for part in Parts::new(image) {
        records.add(part?)?;
    }
    let Records { tasks, train, .. } = records;
    Ok(Checked {
        image,
        tasks,
        train,
    })
}

impl<'a> Checked<'a> {
    /// The train of its frames.
    pub fn train(&self) -> RampTrain
        ensures { frames_of result ≡ frames_in (records_of self.now) }
    {
        self.train
    }

    /// Where its first frame begins, or the end mark if it has none: tasks come first.
    pub fn first_frame(&self) -> usize
        ensures { result ≡ first_frame 0 (records_of self.now) }
    {
        TASK * self.tasks
    }

    /// The record of a task, by its place among them.
    fn record(&self, n: usize) -> &'a [u8; TASK]
        requires { n < self.now.tasks }
        ensures { result.now ≡ take 37 (drop (37 * n) self.now.image.now) }
    {
        chunk(self.image, TASK * n)
    }

    /// A task with its channel, by its place among them.
    fn entry(&self, n: usize) -> (u8, Entry)
        requires { n < self.now.tasks }
        ensures { placed result ≡ slice_index_or (tasks_in (records_of self.now)) n (placed result) }
    {
        entry_in(self.record(n))
    }

    /// Puts its tasks, with their channels, in the first of these places.
    fn take_tasks(&self, places: &mut [(u8, Entry); 64])
        ensures { map placed (take self.now.tasks places.new) ≡ tasks_in (records_of self.now) }
    {
        for n in 0..self.tasks {
            places[n] = self.entry(n);
        }
    }

    /// Admits its tasks into a plan by a list of them; there is at least one.
    fn admit_several<G: Load>(&self, plan: &mut Plan<G>) -> Result<Option<u64>, (usize, Refusal)>
        requires { 1 ≤ self.now.tasks }
        ensures says { (result, ledger plan.new) ≡ in_turn (G.Load.meaning (guest plan.old)) 0 None (tasks_in (records_of self.now)) (ledger plan.old) }
        ensures guest { guest plan.new ≡ guest plan.old }
        ensures kept { (before : List a_call) → ledger plan.old ≡ after (G.Load.meaning (guest plan.old)) blank before
            → KeptAgain (G.Load.meaning (guest plan.old)) before (ledger plan.new) }
    {
        let mut entries = [self.entry(0); 64];
        self.take_tasks(&mut entries);
        plan.admit_all(&entries[..self.tasks])
    }

    /// Admits its tasks into a plan: the answer tells a refused one by its place among them. One alone goes as a list of
    /// one, since to fill 64 places would take a good part of the time of such an image.
    fn admit_tasks<G: Load>(&self, plan: &mut Plan<G>) -> Result<Option<u64>, (usize, Refusal)>
        ensures says { (result, ledger plan.new) ≡ in_turn (G.Load.meaning (guest plan.old)) 0 None (tasks_in (records_of self.now)) (ledger plan.old) }
        ensures guest { guest plan.new ≡ guest plan.old }
        ensures kept { (before : List a_call) → ledger plan.old ≡ after (G.Load.meaning (guest plan.old)) blank before
            → KeptAgain (G.Load.meaning (guest plan.old)) before (ledger plan.new) }
    {
        match self.tasks {
            0 => Ok(None),
            1 => plan.admit_all(&[self.entry(0)]),
            _ => self.admit_several(plan),
        }
    }

    /// Admits its tasks into a plan, one after another, up to the first that is refused: the busy period of the plan with
    /// all of them, in ticks (none where there are no tasks), or why and where one is refused. The plan keeps the tasks of
    /// earlier records. That the guest stays is a fact about the call.
    pub fn admit_to<G: Load>(&self, plan: &mut Plan<G>) -> Result<Option<u64>, PlanFault>
        ensures says { (result, ledger plan.new) ≡ admitted_to (G.Load.meaning (guest plan.old)) (records_of self.now) (ledger plan.old) }
        ensures guest { guest plan.new ≡ guest plan.old }
        ensures kept { (before : List a_call) → ledger plan.old ≡ after (G.Load.meaning (guest plan.old)) blank before
            → KeptAgain (G.Load.meaning (guest plan.old)) before (ledger plan.new) }
    {
        // No `map_err`: its closure would not know that the place is one of the tasks.
        match self.admit_tasks(plan) {
            Ok(busy) => Ok(busy),
            Err((place, refusal)) => Err(PlanFault::Refused(refusal, TASK * place)),
        }
    }
}
