ghost use Rattle.loads.specs.Channels.{table};
ghost use Rattle.loads.specs.Ranged.{table_laws};
ghost use Rattle.theory.proofs.BesideLaws.{beside_laws};
ghost use Rattle.plan.specs.Ledger.{ledger, guest, plan};

use crate::beside::Beside;
use loads::table::TaskTable;
use theory::load::Load;
use theory::rows::{Effort, ROW};

/// A task table beside a guest, which is any load. A plan is again a load, and so can be another plan's guest.
#[derive(Drop)]
pub struct Plan<G> {
    loads: Beside<TaskTable, G>,
}

/// A plan is a load: its tasks beside its guest.
impl<G: Load> Load for Plan<G> {
    ghost meaning = { λ p. plan (G.Load.meaning (guest p)) (ledger p) };

    ghost lawful = { λ p. beside_laws (table (ledger p)) (G.Load.meaning (guest p)) (table_laws p.loads.first) (G.Load.lawful (guest p)) };

    fn due(&self, t: u64) -> u64 {
        self.loads.due(t)
    }

    fn held(&self, t: u64) -> u64 {
        self.loads.held(t)
    }

    fn ready(&self, s: u64) -> u64 {
        self.loads.ready(s)
    }

    fn last_mark(&self, t: u64) -> Option<u64> {
        self.loads.last_mark(t)
    }

    fn due_row(&self, from: u64) -> [u64; ROW] {
        self.loads.due_row(from)
    }

    fn held_row(&self, from: u64) -> [u64; ROW] {
        self.loads.held_row(from)
    }

    fn ready_row(&self, from: u64) -> [u64; ROW] {
        self.loads.ready_row(from)
    }

    fn effort(&self) -> Effort {
        self.loads.effort()
    }
}

pub mod admissions;
pub mod calls;
pub mod promise;
