ghost use Rattle.std.specs.Prelude.{◌≡◌, ℕ, ◌^◌, min, Option, filter_map};
ghost use Rattle.std.specs.Option.{option_map};
ghost use Rattle.theory.specs.Meaning.{last_mark};
ghost use Rattle.theory.specs.Rows.{uncut_row};
ghost use Rattle.loads.specs.Params.{TaskParams};
ghost use Rattle.loads.specs.Tasks.{total, largest, any, task_held, task_mark};
ghost use Rattle.loads.specs.Places.{Gives, params_behind};
ghost use Rattle.loads.specs.Steps.{grown};

use crate::marks::later;
use crate::steps::Steps;
use crate::steps::tops::Tops;
use crate::task::Task;
use crate::ticks::Ticks;
use theory::limits::CUT;
use theory::rows::ROW;

/// A place in which a task can stand.
pub(crate) trait Place {
    ghost stands: { Self → Option TaskParams };

    /// The task that stands here, if there is one.
    fn task(&self) -> Option<&Task>
        ensures { option_map params_behind result ≡ stands self.now };
}

/// The sum of an amount over the tasks of these places, cut at 2^40.
pub(crate) fn total<P: Place, F: Fn(&Task) -> u64>(places: &[P], amount: F) -> u64
    requires { F.IsAlwaysCallable amount }
    ensures { (f : TaskParams → ℕ) → Gives F.Fn amount f → result ≡ min (total f (filter_map P.stands places.now)) (2 ^ 40) }
{
    let mut sum: u64 = 0;
    for place in places {
        if let Some(task) = place.task() {
            sum = sum.saturating_add(amount(task)).min(CUT);
        }
    }
    sum
}

/// The largest of an amount over the tasks of these places, cut at 2^40.
pub(crate) fn largest<P: Place, F: Fn(&Task) -> u64>(places: &[P], amount: F) -> u64
    requires { F.IsAlwaysCallable amount }
    ensures { (f : TaskParams → ℕ) → Gives F.Fn amount f → result ≡ min (largest f (filter_map P.stands places.now)) (2 ^ 40) }
{
    let mut most: u64 = 0;
    for place in places {
        if let Some(task) = place.task() {
            most = most.max(amount(task));
        }
    }
    most.min(CUT)
}

/// The latest of the tasks' marks.
pub(crate) fn latest<P: Place, F: Fn(&Task) -> Option<u64>>(places: &[P], mark: F) -> Option<u64>
    requires { F.IsAlwaysCallable mark }
    ensures { (t : ℕ) → Gives F.Fn mark (λ x. last_mark (task_mark x) t) → result ≡ last_mark (λ u. any (λ x. task_mark x u) (filter_map P.stands places.now)) t }
{
    let mut last = None;
    for place in places {
        if let Some(task) = place.task() {
            last = later(last, mark(task));
        }
    }
    last
}

/// The uncut row, from `from` on, of what the tasks of these places grow to together. A task grows by its cost at the tick
/// that the closure gives of it and again after every period, each of these brought forward by its jitter.
pub(crate) fn uncut_row<P: Place, F: Fn(&Task) -> u32>(
    places: &[P],
    from: u64,
    first: F,
) -> [u64; ROW]
    requires { F.IsAlwaysCallable first }
    ensures { (f : TaskParams → ℕ) → Gives F.Fn first f → result ≡ uncut_row (λ t. total (λ x. grown x (f x) t) (filter_map P.stands places.now)) from }
{
    let from = Ticks::upto(from);
    let mut steps = Steps::new(0);
    for place in places {
        if let Some(task) = place.task() {
            task.add(from, first(task), &mut steps);
        }
    }
    steps.row()
}

/// The uncut row, from `from` on, of the longest section that the tasks of these places can hold.
pub(crate) fn uncut_held_row<P: Place>(places: &[P], from: u64) -> [u64; ROW]
    ensures { result ≡ uncut_row (λ t. largest (λ x. task_held x t) (filter_map P.stands places.now)) from }
{
    let from = Ticks::upto(from);
    let mut tops = Tops::new();
    for place in places {
        if let Some(task) = place.task() {
            task.hold(from, &mut tops);
        }
    }
    tops.row_back()
}
