ghost use Rattle.std.specs.Prelude.{◌≡◌};
ghost use Rattle.format.specs.Faults.{image_fault, record_fault, plan_fault};

use super::{ImageFault, PlanFault, RecordFault};
use loads::refusal::Refusal;

/// The refusal and the byte offset.
impl From<ImageFault> for (Refusal, usize) {
    ghost from_gives = { λ e r. r ≡ image_fault e };

    fn from(e: ImageFault) -> (Refusal, usize) {
        match e {
            ImageFault::UnknownMark(at) => (Refusal::UnknownMark, at),
            ImageFault::Cut(at) => (Refusal::Cut, at),
            ImageFault::Trailing(at) => (Refusal::Trailing, at),
        }
    }
}

/// The refusal and the byte offset.
impl From<RecordFault> for (Refusal, usize) {
    ghost from_gives = { λ e r. r ≡ record_fault e };

    fn from(e: RecordFault) -> (Refusal, usize) {
        match e {
            RecordFault::Image(e) => e.into(),
            RecordFault::Refused(r, at) => (r, at),
        }
    }
}

/// The refusal and the byte offset.
impl From<PlanFault> for (Refusal, usize) {
    ghost from_gives = { λ e r. r ≡ plan_fault e };

    fn from(e: PlanFault) -> (Refusal, usize) {
        match e {
            PlanFault::Record(e) => e.into(),
            PlanFault::Refused(r, at) => (r, at),
        }
    }
}
