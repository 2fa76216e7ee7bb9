ghost use Rattle.std.specs.Prelude.{◌≤◌};

/// One frame of a ramp train: a cost, a deadline counted from its release, and the gap to the next release, in
/// ticks. Every frame record in existence keeps the ranges.
#[derive(Clone, Copy, Debug)]
pub struct Frame {
    cost: u32,
    deadline: u32,
    gap: u32,
    ghost cost_range: { (1 ≤ cost) × (cost ≤ 10000000) },
    ghost deadline_range: { (1 ≤ deadline) × (deadline ≤ 100000000) },
    ghost gap_range: { (1 ≤ gap) × (gap ≤ 10000000) },
}

pub mod make;
