ghost use Rattle.std.specs.Prelude.{◌≡◌, ◌^◌, ◌<◌, ◌≤◌};
ghost use Rattle.theory.specs.Meaning.{claim};

use theory::load::Load;

/// The claim at a tick at which no answer is cut.
pub(crate) fn claim_at<L: Load>(load: &L, t: u64) -> u64
    requires within { t ≤ 100000000 }
    requires uncut { (L.Load.meaning load.now).amounts.ready t ≤ 2 ^ 40 }
    ensures { result ≡ claim (L.Load.meaning load.now).amounts t }
{
    let due = load.due(t);
    if due == 0 { 0 } else { due + load.held(t) }
}

/// Whether a tick is a mark.
pub(crate) fn is_mark<L: Load>(load: &L, t: u64) -> bool
    requires { t < 100000000 }
    ensures { result ≡ (L.Load.meaning load.now).amounts.mark t }
{
    load.last_mark(t + 1) == Some(t)
}
