ghost use Rattle.theory.specs.Meaning.{Laws};
ghost use Rattle.theory.specs.Beside.{beside};
ghost use Rattle.theory.specs.Verdict.{Accepted};
ghost use Rattle.theory.specs.Statements.{OneVerdict, NeverLate, LowerAccepted};

use crate::load::Load;

/// For all amounts under the rules: walk and look give one verdict, and what yes, late and closing say.
pub fn verdicts_agree()
    ensures { OneVerdict }
{}

/// A load with smaller amounts than an accepted one is accepted.
pub fn lower_is_accepted()
    ensures { LowerAccepted }
{}

/// An accepted load never has a late job: on every permitted list of proper jobs, run by the dispatcher.
pub fn accepted_is_never_late<L: Load>(load: &L)
    ensures { Accepted (L.Load.meaning load.now).amounts → NeverLate (L.Load.meaning load.now) }
{}

/// One load beside another keeps the laws, and is accepted only if each of the two is.
pub fn beside_is_lawful<A: Load, B: Load>(a: &A, b: &B)
    ensures laws { Laws (beside (A.Load.meaning a.now) (B.Load.meaning b.now)) }
    ensures parts { Accepted (beside (A.Load.meaning a.now) (B.Load.meaning b.now)).amounts
        → Accepted (A.Load.meaning a.now).amounts × Accepted (B.Load.meaning b.now).amounts }
{}
