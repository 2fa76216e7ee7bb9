ghost use Rattle.std.specs.Prelude.{◌≡◌, ℕ, ◌+◌, ◌-◌, ◌^◌, ◌<◌, ◌≤◌, min, map, slice_index};
ghost use Rattle.std.specs.List.{range_with_len};

use theory::limits::CUT;
use theory::rows::ROW;

/// Fills a row from place `until` on, where each place has what the one `round` places before it has and `more` more,
/// cut at 2^40.
pub(crate) fn repeat(row: &mut [u64; ROW], until: usize, round: usize, more: u64)
    requires again { 1 ≤ round }
    requires back { until < 256 → round ≤ until }
    ensures { (f : ℕ → ℕ) → ((i : ℕ) → i < until → i < 256 → slice_index row.old i ≡ min (f i) (2 ^ 40)) → ((i : ℕ) → until ≤ i → i < 256 → f i ≡ f (i - round) + more) → row.new ≡ map (λ i. min (f i) (2 ^ 40)) (range_with_len 0 256) }
{
    for i in until..ROW {
        row[i] = row[i - round].saturating_add(more).min(CUT);
    }
}
