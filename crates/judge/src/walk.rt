ghost use Rattle.std.specs.Prelude.{◌≡◌, ℕ, ◌+◌, ◌^◌, ◌<◌, ◌≤◌};
ghost use Rattle.theory.specs.Meaning.{claim};
ghost use Rattle.theory.specs.Verdict.{walk};
ghost use Rattle.judge.specs.Steps.{stepped};

use crate::claims::claim_at;
use crate::pace::Pace;
use crate::search::busy_period;
use theory::load::Load;
use theory::rows::ROW;
use theory::verdict::Unfit;

/// One step of the walk, from tick t: to its claim where that is below it, and else to the last mark below it, or the
/// tick and its claim where the claim exceeds it.
fn step<L: Load>(load: &L, t: u64) -> Result<Option<u64>, Unfit>
    requires within { t ≤ 100000000 }
    requires uncut { (L.Load.meaning load.now).amounts.ready t ≤ 2 ^ 40 }
    ensures { result ≡ stepped (L.Load.meaning load.now).amounts t }
{
    let claimed = claim_at(load, t);
    if claimed > t {
        return Err(Unfit::Late((t, claimed)));
    }
    if claimed < t {
        return Ok(Some(claimed));
    }
    Ok(load.last_mark(t))
}

/// A tick from which on, up to `t`, no claim exceeds its tick: as far down the row that ends at `t` as none does; `t + 1`
/// where that of `t` does.
fn kept_in_row<L: Load>(load: &L, t: u64) -> u64
    requires within { t < 100000000 }
    requires uncut { (L.Load.meaning load.now).amounts.ready t ≤ 2 ^ 40 }
    ensures below { result ≤ t + 1 }
    ensures kept { (v : ℕ) → result ≤ v → v ≤ t → claim (L.Load.meaning load.now).amounts v ≤ v }
{
    let from = t.saturating_sub(ROW as u64 - 1);
    let due_row = load.due_row(from);
    let held_row = load.held_row(from);
    let mut kept = t + 1;
    while kept > from {
        let i = (kept - 1 - from) as usize;
        let due = due_row[i];
        if due > 0 && due.saturating_add(held_row[i]) >= kept {
            break;
        }
        kept -= 1;
    }
    kept
}

/// The verdict by the walk: from the last mark below the busy period downwards, until a claim exceeds its tick or no
/// mark is left. Where single steps get on slowly, the walk passes rows of ticks that their claims do not exceed.
pub fn judge<L: Load>(load: &L) -> Result<u64, Unfit>
    ensures { result ≡ walk (L.Load.meaning load.now).amounts }
{
    let busy = busy_period(load).ok_or(Unfit::NotClosed)?;
    let mut next = load.last_mark(busy);
    let mut pace = Pace::new();
    while let Some(t) = next {
        next = step(load, t)?;
        if let Some(u) = next {
            if pace.is_slow(load, t - u) {
                next = load.last_mark(kept_in_row(load, u));
            }
        }
    }
    Ok(busy)
}
