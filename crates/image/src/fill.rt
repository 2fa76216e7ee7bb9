ghost use Rattle.std.specs.Prelude.{◌≡◌, List};
ghost use Rattle.loads.specs.Channels.{blank};
ghost use Rattle.plan.specs.declared.call.Call.{Call as a_call};
ghost use Rattle.plan.specs.Ledger.{ledger, after, guest};
ghost use Rattle.format.specs.Decode.{decode};
ghost use Rattle.format.specs.Statements.{WritesAgain};
ghost use Rattle.format.specs.Fills.{filled, KeptAgain};

use crate::check::check;
use format::fault::PlanFault;
use plan::plan::Plan;
use theory::load::Load;

/// Admits the tasks of an image into a plan, one after another, up to the first that is refused; the plan keeps the
/// tasks of earlier records. The whole image is checked first. A plan does not carry the list of its calls, so `kept`
/// speaks of the caller's; and that the guest stays is a fact about the call.
pub fn fill<G: Load>(plan: &mut Plan<G>, image: &[u8]) -> Result<(), PlanFault>
    ensures says { (result, ledger plan.new) ≡ filled (G.Load.meaning (guest plan.old)) (decode image.now) (ledger plan.old) }
    ensures guest { guest plan.new ≡ guest plan.old }
    ensures kept { (before : List a_call) → ledger plan.old ≡ after (G.Load.meaning (guest plan.old)) blank before
        → KeptAgain (G.Load.meaning (guest plan.old)) before (ledger plan.new) }
    ensures again { WritesAgain (G.Load.meaning (guest plan.old)) image.now }
{
    check(image)?.admit_to(plan)?;
    Ok(())
}
