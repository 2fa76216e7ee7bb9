ghost use Rattle.std.specs.Prelude.{◌<◌, ◌≤◌};

/// A task: cost C, period T, deadline D, jitter J and longest bus section S, in ticks. Every task record in
/// existence keeps the ranges.
#[derive(Clone, Copy, Debug)]
pub struct Task {
    pub cost: u32,
    pub period: u32,
    pub deadline: u32,
    pub jitter: u32,
    pub section: u16,
    ghost cost_range: { (1 ≤ cost) × (cost ≤ 10000000) },
    ghost period_range: { (1 ≤ period) × (period ≤ 10000000) },
    ghost deadline_range: { (1 ≤ deadline) × (deadline ≤ 100000000) },
    ghost jitter_below: { (jitter < period) × (jitter < deadline) },
    ghost section_within: { (section ≤ cost) × (section ≤ 65535) },
}

pub mod amounts;
pub mod make;
