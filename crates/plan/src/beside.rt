#![tactic(auto, unfolding(theory::specs::Beside::beside, theory::specs::Beside::both))]

ghost use Rattle.std.specs.Prelude.{◌≡◌, ℕ, ◌+◌, ◌^◌, min};
ghost use Rattle.theory.specs.Meaning.{answered};
ghost use Rattle.theory.specs.Rows.{row};
ghost use Rattle.theory.specs.Beside.{beside};
ghost use Rattle.theory.proofs.BesideLaws.{beside_laws};

use loads::marks::later;
use theory::limits::CUT;
use theory::load::Load;
use theory::rows::{Effort, ROW};

/// Two loads side by side.
#[derive(Drop)]
pub struct Beside<A, B> {
    pub first: A,
    pub second: B,
}

/// Two amounts added up, the sum cut at 2^40.
fn cut_sum(a: u64, b: u64) -> u64
    ensures { result ≡ min (a + b) (2 ^ 40) }
{
    a.saturating_add(b).min(CUT)
}

/// Two rows joined place by place: the row of what the closure makes of the two answers at each tick.
fn join_rows<F: Fn(u64, u64) -> u64>(a: &[u64; ROW], b: &[u64; ROW], join: F) -> [u64; ROW]
    requires { F.IsAlwaysCallable join }
    ensures { (f g h : ℕ → ℕ) (w : ℕ) → ((t r : ℕ) → F.post join (answered f t) (answered g t) r → r ≡ answered h t)
        → a.now ≡ row f w → b.now ≡ row g w → result ≡ row h w }
{
    let mut joined = [0; ROW];
    for (i, amount) in a.iter().enumerate() {
        // By index: what is written through `iter_mut` a proof does not know afterwards.
        joined[i] = join(*amount, b[i]);
    }
    joined
}

impl<A: Load, B: Load> Load for Beside<A, B> {
    ghost meaning = { λ x. beside (A.Load.meaning x.first) (B.Load.meaning x.second) };

    ghost lawful = { λ x. beside_laws (A.Load.meaning x.first) (B.Load.meaning x.second) (A.Load.lawful x.first) (B.Load.lawful x.second) };

    fn due(&self, t: u64) -> u64 {
        cut_sum(self.first.due(t), self.second.due(t))
    }

    fn held(&self, t: u64) -> u64 {
        self.first.held(t).max(self.second.held(t))
    }

    fn ready(&self, s: u64) -> u64 {
        cut_sum(self.first.ready(s), self.second.ready(s))
    }

    fn last_mark(&self, t: u64) -> Option<u64> {
        later(self.first.last_mark(t), self.second.last_mark(t))
    }

    fn due_row(&self, from: u64) -> [u64; ROW] {
        join_rows(
            &self.first.due_row(from),
            &self.second.due_row(from),
            cut_sum,
        )
    }

    fn held_row(&self, from: u64) -> [u64; ROW] {
        join_rows(
            &self.first.held_row(from),
            &self.second.held_row(from),
            |x, y| x.max(y),
        )
    }

    fn ready_row(&self, from: u64) -> [u64; ROW] {
        join_rows(
            &self.first.ready_row(from),
            &self.second.ready_row(from),
            cut_sum,
        )
    }

    fn effort(&self) -> Effort {
        let (a, b) = (self.first.effort(), self.second.effort());
        Effort {
            question: a.question.saturating_add(b.question),
            row: a.row.saturating_add(b.row),
        }
    }
}
