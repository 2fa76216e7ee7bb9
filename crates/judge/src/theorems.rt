ghost use Rattle.std.specs.Prelude.{◌≡◌, ℕ, ◌↔◌, Some, Ok};
ghost use Rattle.theory.specs.Verdict.{busy, walk, look};
ghost use Rattle.theory.specs.Statements.{NoClaimExceeds};

use theory::load::Load;

/// For every load, the judge's verdict and the audit's are one; and where the busy period closes, it is yes
/// exactly when no tick, however far out, is exceeded by its claim.
pub fn verdicts_agree<L: Load>(load: &L)
    ensures same { walk (L.Load.meaning load.now).amounts ≡ look (L.Load.meaning load.now).amounts }
    ensures yes { (w : ℕ) → busy (L.Load.meaning load.now).amounts ≡ Some w
        → (walk (L.Load.meaning load.now).amounts ≡ Ok w) ↔ NoClaimExceeds (L.Load.meaning load.now).amounts }
{}
