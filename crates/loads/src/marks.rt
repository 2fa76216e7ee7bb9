ghost use Rattle.std.specs.Prelude.{◌≡◌};
ghost use Rattle.theory.specs.Meaning.{later as later_of};

/// The later of two ticks, each of which may be absent. It takes both apart: `a.max(b)` is shorter, and plain only to
/// one who knows that `None` is below every `Some`.
pub fn later(a: Option<u64>, b: Option<u64>) -> Option<u64>
    ensures { result ≡ later_of a b }
{
    match (a, b) {
        (Some(s), Some(t)) => Some(s.max(t)),
        (Some(s), None) => Some(s),
        (None, t) => t,
    }
}
