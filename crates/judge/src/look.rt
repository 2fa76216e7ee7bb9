ghost use Rattle.std.specs.Prelude.{◌≡◌};
ghost use Rattle.theory.specs.Verdict.{look};

use crate::claims::{claim_at, is_mark};
use crate::search::busy_period;
use theory::load::Load;
use theory::verdict::Unfit;

/// The verdict by a look at every tick below the busy period.
pub fn audit<L: Load>(load: &L) -> Result<u64, Unfit>
    ensures { result ≡ look (L.Load.meaning load.now).amounts }
{
    let busy = busy_period(load).ok_or(Unfit::NotClosed)?;
    for t in (0..busy).rev() {
        let claimed = claim_at(load, t);
        if claimed > t && is_mark(load, t) {
            return Err(Unfit::Late((t, claimed)));
        }
    }
    Ok(busy)
}
