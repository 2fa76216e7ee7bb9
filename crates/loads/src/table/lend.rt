ghost use Rattle.std.specs.Prelude.{◌≡◌, ◌<◌, slice_index_or};
ghost use Rattle.std.specs.Borrow.{sem, follows};
ghost use Rattle.loads.specs.contracts.table.Table.{the_row as table_row};
ghost use Rattle.loads.specs.Slots.{with_slot};

use super::Table;

impl<T> Table<T> {
    /// Lends the one element at `i`, to be changed by its own methods. What the borrower leaves there is what
    /// the table then holds at `i`; every other element stays.
    pub(crate) fn slot(&mut self, i: usize) -> &mut T
        requires { i < 64 }
        ensures* follows { sem 𝓛 (follows (table_row T.row) T.row self.entry.ghost_name result.ghost_name (with_slot self.old i)) }
        ensures item { (d : T) → result.now ≡ slice_index_or self.old.slots i d }
    {
        &mut self.slots[i]
    }
}
