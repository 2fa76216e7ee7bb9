ghost use Rattle.std.specs.Prelude.{◌≡◌, None, slice_set};
ghost use Rattle.loads.specs.Channels.{blank, channels, held_content, slot_content, read_content, held_at, put_at, bears as bears_label, found_from};

use super::{Slot, Table};
use crate::entry::Entry;
use crate::refusal::Refusal;

/// The highest channel.
const LAST: u8 = 63;

impl Slot {
    /// Whether the channel is filled and has that label.
    fn bears(&self, label: &[u8; 16]) -> bool
        ensures { result ≡ bears_label (slot_content self.now) label.now }
    {
        self.held
            .as_ref()
            .is_some_and(|entry| entry.label == *label)
    }
}

impl Table<Slot> {
    /// A table of 64 empty channels.
    pub fn new() -> Table<Slot>
        ensures { channels result ≡ blank }
    {
        Table {
            slots: [Slot { held: None }; 64],
        }
    }

    /// What the channel holds, or refusal 7.
    pub fn get(&self, channel: u8) -> Result<Option<Entry>, Refusal>
        ensures { read_content result ≡ held_at (channels self.now) channel }
    {
        let slot = self
            .slots
            .get(usize::from(channel))
            .ok_or(Refusal::NoChannel)?;
        Ok(slot.held)
    }

    /// Puts this in the place of what the channel holds, and changes no other channel; or refusal 7.
    pub fn put(&mut self, channel: u8, held: Option<Entry>) -> Result<(), Refusal>
        ensures { (result, channels self.new) ≡ put_at (channels self.old) channel (held_content held) }
    {
        if channel > LAST {
            return Err(Refusal::NoChannel);
        }
        self.slot(usize::from(channel)).put(held);
        Ok(())
    }

    /// Empties a channel. Above 63 there is none, and nothing changes.
    pub fn clear(&mut self, channel: u8)
        ensures { channels self.new ≡ slice_set (channels self.old) channel None }
    {
        if channel <= LAST {
            self.slot(usize::from(channel)).put(None);
        }
    }

    /// The lowest filled channel with that label.
    pub fn find(&self, label: &[u8; 16]) -> Option<u8>
        ensures { result ≡ found_from 0 (channels self.now) label.now }
    {
        let channel = self.slots.iter().position(|slot| slot.bears(label));
        channel.and_then(|c| u8::try_from(c).ok())
    }
}
