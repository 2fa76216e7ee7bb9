ghost use Rattle.std.specs.Prelude.{◌≡◌};
ghost use Rattle.format.specs.declared.fault.PlanFault.TheVariants.{Record};
ghost use Rattle.format.specs.declared.fault.RecordFault.TheVariants.{Image};

use loads::refusal::Refusal;

/// What is wrong with the bytes, and the offset.
#[derive(Clone, Copy, PartialEq, Eq, Debug)]
pub enum ImageFault {
    /// A record has an unknown mark.
    UnknownMark(usize),
    /// The image ends inside a mark or a record, or before an end mark.
    Cut(usize),
    /// Bytes follow the end mark.
    Trailing(usize),
}

/// What is wrong with a record: its bytes, or a check on the record with this offset.
#[derive(Clone, Copy, PartialEq, Eq, Debug)]
pub enum RecordFault {
    /// The fault of the bytes, whole.
    Image(ImageFault),
    /// The check that the record at this offset fails.
    Refused(Refusal, usize),
}

impl From<ImageFault> for RecordFault {
    ghost from_gives = { λ e r. r ≡ Image e };

    fn from(e: ImageFault) -> RecordFault {
        RecordFault::Image(e)
    }
}

/// Why a plan is not filled: a record's fault whole, or the plan's refusal of the task at this offset.
#[derive(Clone, Copy, PartialEq, Eq, Debug)]
pub enum PlanFault {
    /// The fault of a record, whole.
    Record(RecordFault),
    /// The plan's refusal of the task at this offset.
    Refused(Refusal, usize),
}

impl From<RecordFault> for PlanFault {
    ghost from_gives = { λ e r. r ≡ Record e };

    fn from(e: RecordFault) -> PlanFault {
        PlanFault::Record(e)
    }
}

mod refusal;
