ghost use Rattle.std.specs.Prelude.{◌≡◌, ℕ, ◌<◌, ◌≤◌, ◌≢◌};
ghost use Rattle.theory.specs.Verdict.{busy};

use crate::pace::Pace;
use theory::load::Load;

/// The last tick at which a busy period may close.
pub(crate) const LONGEST: u64 = 100_000_000;

/// The first fixed point of `ready` from `w` on, or a tick up to which there is none from `w` on: the one after the row
/// that begins at `w`, or 100,000,000.
fn fixpoint_in_row<L: Load>(load: &L, w: u64) -> u64
    requires least { 1 ≤ w }
    requires most { w ≤ 100000000 }
    requires open { w ≤ (L.Load.meaning load.now).amounts.ready w }
    ensures onward { w ≤ result }
    ensures within { result ≤ 100000000 }
    ensures open { result ≤ (L.Load.meaning load.now).amounts.ready result }
    ensures passed { (v : ℕ) → w ≤ v → v < result → (L.Load.meaning load.now).amounts.ready v ≢ v }
{
    let row = load.ready_row(w);
    let mut at = w;
    for ready in row.iter() {
        if *ready == at || at == LONGEST {
            break;
        }
        at += 1;
    }
    at
}

/// The busy period, if it closes: the least fixed point of `ready` from 1 on, reached from below, or 0 where
/// nothing is ready within 1 tick. Where single steps get on slowly, the search goes on by rows of ticks.
pub fn busy_period<L: Load>(load: &L) -> Option<u64>
    ensures { result ≡ busy (L.Load.meaning load.now).amounts }
{
    if load.ready(1) == 0 {
        return Some(0);
    }
    let mut w = 1;
    let mut pace = Pace::new();
    let closed = loop {
        let next = load.ready(w);
        if next == w {
            break w;
        }
        if next > LONGEST {
            return None;
        }
        w = if pace.is_slow(load, next - w) {
            fixpoint_in_row(load, next)
        } else {
            next
        };
    };
    Some(closed)
}
