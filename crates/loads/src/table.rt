ghost use Rattle.std.specs.Prelude.{◌≡◌, length};

use crate::entry::Entry;

/// One channel: empty, or filled with label and task. A table lends it to be changed by its own method.
#[derive(Clone, Copy)]
pub struct Slot {
    held: Option<Entry>,
}

impl Slot {
    /// Puts this in the place of what the channel holds.
    pub fn put(&mut self, held: Option<Entry>)
        ensures { self.new ≡ (record { held = held }) }
    {
        self.held = held;
    }
}

/// Sixty-four elements, in place since nothing is on the heap; one can be lent to be changed.
#[derive(Drop)]
pub struct Table<T> {
    slots: [T; 64],
    ghost full: { length slots ≡ 64 },
}

/// The task table: 64 channels, 0 to 63.
pub type TaskTable = Table<Slot>;

pub mod answers;
pub mod channels;
mod lend;
