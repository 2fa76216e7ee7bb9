ghost use Rattle.std.specs.Prelude.{◌≡◌, min, List, map, length, take, drop};
ghost use Rattle.loads.specs.Channels.{blank};
ghost use Rattle.plan.specs.declared.call.Call.{Call as a_call};
ghost use Rattle.plan.specs.Ledger.{ledger, guest, reply, after, answers_to};
ghost use Rattle.plan.specs.Promise.{Kept};

use super::Plan;
use crate::call::{Answer, Call};
use theory::load::Load;

impl<G: Load> Plan<G> {
    /// Carries out as many of the calls as there are places for answers, and says how many.
    ///
    /// This is the call that carries the plan's promise: whatever calls the plan has undergone since its making,
    /// and whatever calls are handed in, the answers are the ledger's, the channels are the ledger's, what late
    /// and granted say is exact, and over an accepted guest no permitted job is ever late (`Kept`). A plan does not
    /// carry the list of its calls, so `kept` speaks of the caller's. Calls and answers are the caller's memory.
    pub fn carry_out(&mut self, calls: &[Call], answers: &mut [Answer]) -> usize
        ensures count { result ≡ min (length calls.now) (length answers.old) }
        ensures guest { guest self.new ≡ guest self.old }
        ensures says { map reply (take result answers.new) ≡ answers_to (G.Load.meaning (guest self.old)) (ledger self.old) (take result calls.now) }
        ensures channels { ledger self.new ≡ after (G.Load.meaning (guest self.old)) (ledger self.old) (take result calls.now) }
        ensures untouched { drop result answers.new ≡ drop result answers.old }
        ensures kept { (before : List a_call) → ledger self.old ≡ after (G.Load.meaning (guest self.old)) blank before
            → Kept (G.Load.meaning (guest self.old)) before (take result calls.now) (map reply (take result answers.new)) (ledger self.new) }
    {
        let count = calls.len().min(answers.len());
        // Written by index: a proof would not know what was written through `answers.iter_mut().zip(calls)`.
        for (n, call) in calls[..count].iter().enumerate() {
            answers[n] = self.call(call);
        }
        count
    }
}
