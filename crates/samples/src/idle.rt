#![tactic(auto, unfolding(theory::specs::Beside::nothing))]

ghost use Rattle.std.specs.Prelude.{◌≡◌};
ghost use Rattle.theory.specs.Beside.{nothing};
ghost use Rattle.theory.proofs.BesideLaws.{nothing_laws};

use theory::load::Load;

/// A load with no work: a guest for a plan that is to have nothing but its own tasks.
#[derive(Clone, Copy, Drop)]
pub struct Idle;

impl Idle {
    /// The load with no work.
    pub fn new() -> Idle
        ensures { result ≡ (record {}) }
    {
        Idle
    }
}

impl Load for Idle {
    // No amounts, and the empty list is the only list of jobs that is permitted: a job would be work that is due.
    ghost meaning = { λ _. nothing };

    ghost lawful = { λ _. nothing_laws };

    fn due(&self, _t: u64) -> u64 {
        0
    }

    fn held(&self, _t: u64) -> u64 {
        0
    }

    fn ready(&self, _s: u64) -> u64 {
        0
    }

    #[tactic(auto, using(theory::proofs::LastMark::last_none), unfolding(theory::specs::Beside::nothing))]
    fn last_mark(&self, _t: u64) -> Option<u64> {
        None
    }
}
