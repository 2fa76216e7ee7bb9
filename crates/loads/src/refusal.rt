ghost use Rattle.std.specs.Prelude.{◌≡◌};
ghost use Rattle.loads.specs.Refusals.{number, late_pair, refusal_of};

use theory::verdict::Unfit;

/// Why a call refuses. Each case has a number, 1 to 17 in this order.
#[derive(Clone, Copy, PartialEq, Eq, Debug)]
pub enum Refusal {
    /// The cost is out of range.
    Cost,
    /// The period of a task or the gap of a frame is out of range.
    Period,
    /// The deadline is out of range.
    Deadline,
    /// The jitter is not below both period and deadline.
    Jitter,
    /// The section is above the cost or above 65,535.
    Section,
    /// A train holds sixteen frames already.
    TrainFull,
    /// The channel is above 63.
    NoChannel,
    /// The channel is filled.
    ChannelFilled,
    /// The channel is empty.
    ChannelEmpty,
    /// The busy period does not close by tick 100,000,000.
    NotClosed,
    /// A mark is exceeded by its claim: the mark and the claim.
    Late((u64, u64)),
    /// A record of the image has an unknown mark.
    UnknownMark,
    /// The image ends inside a mark or a record, or before an end mark.
    Cut,
    /// Bytes follow the end mark.
    Trailing,
    /// The label is not 1 to 16 bytes of 0x21 to 0x7E and then zeros.
    BadLabel,
    /// The channel of a task does not rise, or a task follows a frame.
    OutOfOrder,
    /// The output is shorter than the image.
    OutputShort,
}

impl Refusal {
    /// The mark and the claim of a late refusal.
    pub fn late(self) -> Option<(u64, u64)>
        ensures { result ≡ late_pair self }
    {
        match self {
            Refusal::Late(late) => Some(late),
            _ => None,
        }
    }
}

/// The refusal that a verdict other than yes stands for.
impl From<Unfit> for Refusal {
    ghost from_gives = { λ u r. r ≡ refusal_of u };

    fn from(unfit: Unfit) -> Refusal {
        match unfit {
            Unfit::NotClosed => Refusal::NotClosed,
            Unfit::Late(late) => Refusal::Late(late),
        }
    }
}

/// The number of a refusal, case by case: `as` takes no enum of which a case has fields.
impl From<Refusal> for u32 {
    ghost from_gives = { λ r n. n ≡ number r };

    fn from(refusal: Refusal) -> u32 {
        match refusal {
            Refusal::Cost => 1,
            Refusal::Period => 2,
            Refusal::Deadline => 3,
            Refusal::Jitter => 4,
            Refusal::Section => 5,
            Refusal::TrainFull => 6,
            Refusal::NoChannel => 7,
            Refusal::ChannelFilled => 8,
            Refusal::ChannelEmpty => 9,
            Refusal::NotClosed => 10,
            Refusal::Late(_) => 11,
            Refusal::UnknownMark => 12,
            Refusal::Cut => 13,
            Refusal::Trailing => 14,
            Refusal::BadLabel => 15,
            Refusal::OutOfOrder => 16,
            Refusal::OutputShort => 17,
        }
    }
}
