ghost use Rattle.std.specs.Prelude.{◌≡◌, ℕ, ◌+◌, ◌-◌, min};
ghost use Rattle.theory.specs.Rows.{row, uncut_row, cut_places, moved_places, cut_next_places, Asks};

use crate::limits::LAST;

/// How many ticks a row has.
pub const ROW: usize = 256;

/// A row by single questions: what the closure answers at `from`, `from + 1`, .. `from + 255`.
pub(crate) fn row_by<F: Fn(u64) -> u64>(from: u64, question: F) -> [u64; ROW]
    requires { F.IsAlwaysCallable question }
    ensures { (f : ℕ → ℕ) → Asks F.Fn question f → result ≡ row f from }
{
    let mut answers = [0; ROW];
    for i in 0..ROW {
        answers[i] = question(from.saturating_add(i as u64));
    }
    answers
}

/// Makes a row of what was found as if 100,000,000 were a tick as any other: each place beyond it takes what stands
/// there. In place, since a row is long to copy.
pub fn cut_row(answers: &mut [u64; ROW], from: u64)
    ensures places { answers.new ≡ cut_places from answers.old }
    ensures row { (f : ℕ → ℕ) → answers.old ≡ uncut_row f from → answers.new ≡ row f from }
{
    let last = (LAST - from.min(LAST)).min(ROW as u64 - 1) as usize;
    for i in last + 1..ROW {
        answers[i] = answers[last];
    }
}

/// Moves a row on by one place, and puts 0 at the first.
fn move_row(answers: &mut [u64; ROW])
    ensures places { answers.new ≡ moved_places answers.old }
    ensures row { (f : ℕ → ℕ) → f 0 ≡ 0 → answers.old ≡ uncut_row (λ n. f (n + 1)) 0 → answers.new ≡ row f 0 }
{
    // Forwards, carrying along what stood one place before: a loop from the end would be compiled to a call of `memmove`,
    // which the archive for C would then need from outside.
    let mut before = 0;
    for i in 0..ROW {
        let here = answers[i];
        answers[i] = before;
        before = here;
    }
}

/// One tick before `from` (0 for 0), where the row begins that `cut_next_row` takes.
pub fn tick_before(from: u64) -> u64
    ensures { result ≡ min from 100000000 - 1 }
{
    from.min(LAST).saturating_sub(1)
}

/// As `cut_row`, from an uncut row that begins one tick earlier and has at each tick what is to stand at the next one: so
/// a load can find what is ready within t + 1 ticks by what is released up to tick t.
pub fn cut_next_row(answers: &mut [u64; ROW], from: u64)
    ensures places { answers.new ≡ cut_next_places from answers.old }
    ensures row { (f : ℕ → ℕ) → f 0 ≡ 0 → answers.old ≡ uncut_row (λ n. f (n + 1)) (min from 100000000 - 1) → answers.new ≡ row f from }
{
    if from == 0 {
        move_row(answers);
    } else {
        cut_row(answers, from);
    }
}

/// About how long a single question and a row take, in divisions: one unit for all loads, since the numbers of loads side
/// by side are added up. It decides only which of two ways with the same result is taken, so nothing is said of it.
#[derive(Clone, Copy, Debug)]
pub struct Effort {
    pub question: u64,
    pub row: u64,
}
