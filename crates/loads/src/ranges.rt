ghost use Rattle.std.specs.Prelude.{◌≡◌};
ghost use Rattle.loads.specs.Params.{frame};
ghost use Rattle.loads.specs.Making.{frame_refusal, unless};

use crate::refusal::Refusal;

/// The checks that a task and a frame share, in order: cost, period (of a frame the gap), deadline.
pub(crate) fn check_ranges(cost: u32, period: u32, deadline: u32) -> Result<(), Refusal>
    ensures { result ≡ unless (frame_refusal (frame cost deadline period)) tt }
{
    if !(1..=10_000_000).contains(&cost) {
        return Err(Refusal::Cost);
    }
    if !(1..=10_000_000).contains(&period) {
        return Err(Refusal::Period);
    }
    if !(1..=100_000_000).contains(&deadline) {
        return Err(Refusal::Deadline);
    }
    Ok(())
}
