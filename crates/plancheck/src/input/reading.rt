ghost use Rattle.std.specs.Prelude.{◌≡◌, ℕ, ◌<◌, List, [], take, Option, IfSome, IfOk};
ghost use Rattle.image.specs.Verdict.{judged, told, YesMeans};
ghost use Rattle.image.specs.declared.outcome.Outcome.TheVariants.{Yes as yes};
ghost use Rattle.plancheck.specs.Source.{First, Tells, FirstKnown, TellsKnown};
ghost use Rattle.plancheck.specs.Input.{received, Pulled};

use super::Input;
use crate::source::Source;
use image::outcome::Outcome;
use image::verdict::verdict;
use std::io;
use std::io::Read;

impl Input {
    /// An input of which nothing was read yet.
    fn new() -> Input
        ensures { received result ≡ [] }
    {
        Input {
            bytes: [0; 4096],
            count: 0,
        }
    }

    /// Adds one delivery of the source, and says how many bytes it had. Where the source fails, what was received
    /// before stays as it was.
    fn pull<S: Source>(&mut self, source: &mut S) -> io::Result<usize>
        requires { self.old.count < 4096 }
        ensures { Pulled S.Source.gave source.old self.old result source.new self.new }
    {
        let at = self.count;
        let n = source.deliver(&mut self.bytes[at..])?;
        self.count = at + n;
        Ok(n)
    }

    /// Reads until the source has ended or 4,096 bytes are there.
    fn read_from<S: Source>(source: &mut S) -> io::Result<Input>
        ensures first { IfOk result (λ i. First S.Source.gave source.old (received i)) }
        ensures known { IfOk result (λ i. FirstKnown S.Source.gave source.old (received i)) }
    {
        let mut input = Input::new();
        while input.count < 4096 {
            let n = input.pull(source)?;
            if n == 0 {
                break;
            }
        }
        Ok(input)
    }

    /// The verdict of what was received.
    fn outcome(&self) -> Outcome
        ensures says { result ≡ told (judged (received self.now)) }
        ensures safe { (w : ℕ) → result ≡ yes w → YesMeans (received self.now) w }
    {
        verdict(&self.bytes[..self.count])
    }
}

/// The verdict of the first 4,096 bytes of a source, or of all if there are fewer. The last two clauses are for kinds of
/// sources of which some are known to hold certain bytes and no others, and of the rest nothing is known.
pub fn judge_first<S: Source>(source: &mut S) -> io::Result<Outcome>
    ensures says { IfOk result (λ o. (ahead : S → List ℕ) → Tells S.Source.gave ahead → o ≡ told (judged (take 4096 (ahead source.old)))) }
    ensures safe { IfOk result (λ o. (ahead : S → List ℕ) → Tells S.Source.gave ahead → (w : ℕ) → o ≡ yes w → YesMeans (take 4096 (ahead source.old)) w) }
    ensures says_known { IfOk result (λ o. (ahead : S → Option (List ℕ)) → TellsKnown S.Source.gave ahead
        → IfSome (ahead source.old) (λ xs. o ≡ told (judged (take 4096 xs)))) }
    ensures safe_known { IfOk result (λ o. (ahead : S → Option (List ℕ)) → TellsKnown S.Source.gave ahead
        → IfSome (ahead source.old) (λ xs. (w : ℕ) → o ≡ yes w → YesMeans (take 4096 xs) w)) }
{
    let input = Input::read_from(source)?;
    Ok(input.outcome())
}

/// The verdict of the first 4,096 bytes that a reader has left, or of all if there are fewer. Where a reader is not
/// known to have these bytes and no others, as standard input is not, nothing is said of which they are.
pub fn judge_reader<R: Read>(source: &mut R) -> io::Result<Outcome>
    ensures says { IfOk result (λ o. IfSome (R.remaining source.old) (λ xs. o ≡ told (judged (take 4096 xs)))) }
    ensures safe { IfOk result (λ o. IfSome (R.remaining source.old) (λ xs. (w : ℕ) → o ≡ yes w → YesMeans (take 4096 xs) w)) }
{
    judge_first(source)
}
