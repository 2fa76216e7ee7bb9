ghost use Rattle.std.specs.Prelude.{◌≡◌, Some};
ghost use Rattle.image.specs.Verdict.{told, code_of, line};

use format::fault::PlanFault;
use std::fmt;

/// What is answered on an image.
#[derive(Clone, Copy, PartialEq, Eq, Debug)]
pub enum Outcome {
    /// The plan is accepted: its busy period.
    Yes(u64),
    /// The plan is late: mark and claim, and the offset of the record refused.
    Late((u64, u64), usize),
    /// Any other refusal: its number, and the offset.
    Refused(u32, usize),
}

impl Outcome {
    /// The number that a host in C gets: 0 for yes, 11 for late, else the refusal's number.
    pub fn code(self) -> u32
        ensures { result ≡ code_of self }
    {
        match self {
            Outcome::Yes(_) => 0,
            Outcome::Late(_, _) => 11,
            Outcome::Refused(number, _) => number,
        }
    }
}

/// The outcome of a busy period or of a fault: a match, which says what both become.
impl From<Result<u64, PlanFault>> for Outcome {
    ghost from_gives = { λ r o. o ≡ told r };

    fn from(r: Result<u64, PlanFault>) -> Outcome {
        match r {
            Ok(busy) => Outcome::Yes(busy),
            Err(fault) => {
                let (refusal, at) = fault.into();
                match refusal.late() {
                    Some(late) => Outcome::Late(late, at),
                    None => Outcome::Refused(refusal.into(), at),
                }
            }
        }
    }
}

/// The program's line: fields in decimal, one space apart, ended by 0x0A.
impl fmt::Display for Outcome {
    ghost output = { λ o. Some (line o) };

    fn fmt<W: fmt::Write>(&self, f: &mut fmt::Formatter<W>) -> fmt::Result {
        match self {
            Outcome::Yes(busy) => writeln!(f, "yes {busy}"),
            Outcome::Late((mark, claim), offset) => writeln!(f, "late {mark} {claim} {offset}"),
            Outcome::Refused(number, offset) => writeln!(f, "refused {number} {offset}"),
        }
    }
}
