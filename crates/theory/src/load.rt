ghost use Rattle.std.specs.Prelude.{◌≡◌, min};
ghost use Rattle.theory.specs.Meaning.{Meaning, Laws, answered, last_mark};
ghost use Rattle.theory.specs.Rows.{row};

use crate::rows::{Effort, ROW, row_by};

/// A load: four questions and one meaning, which keeps the laws of a load.
///
/// An argument above 100,000,000 counts as 100,000,000, and an amount above 2^40 is answered as 2^40. A
/// question never refuses and alters nothing.
///
/// A row answers one of the first three questions at 256 ticks at once. A load that can do that in less time than 256
/// questions take implements the rows and `effort` as well.
pub trait Load {
    ghost meaning: { Self → Meaning };

    /// The work that can be released and fall due within `t` ticks.
    fn due(&self, t: u64) -> u64
        ensures { result ≡ answered (meaning self.now).amounts.due t };

    /// The longest section that work not due within `t` ticks can occupy.
    fn held(&self, t: u64) -> u64
        ensures { result ≡ answered (meaning self.now).amounts.held t };

    /// The work that can be released within `s` ticks.
    fn ready(&self, s: u64) -> u64
        ensures { result ≡ answered (meaning self.now).amounts.ready s };

    /// The last mark below tick `t`, if there is one.
    fn last_mark(&self, t: u64) -> Option<u64>
        ensures { result ≡ last_mark (meaning self.now).amounts.mark (min t 100000000) };

    /// What `due` answers at `from`, `from + 1`, .. `from + 255`.
    fn due_row(&self, from: u64) -> [u64; ROW]
        ensures { result ≡ row (meaning self.now).amounts.due from }
    {
        row_by(from, |t| self.due(t))
    }

    /// What `held` answers at `from`, `from + 1`, .. `from + 255`.
    fn held_row(&self, from: u64) -> [u64; ROW]
        ensures { result ≡ row (meaning self.now).amounts.held from }
    {
        row_by(from, |t| self.held(t))
    }

    /// What `ready` answers at `from`, `from + 1`, .. `from + 255`.
    fn ready_row(&self, from: u64) -> [u64; ROW]
        ensures { result ≡ row (meaning self.now).amounts.ready from }
    {
        row_by(from, |s| self.ready(s))
    }

    /// About how long a question and a row take: here as long as a division, and as 256 questions.
    fn effort(&self) -> Effort {
        Effort {
            question: 1,
            row: ROW as u64,
        }
    }

    ghost lawful: { (x : Self) → Laws (meaning x) };
}
