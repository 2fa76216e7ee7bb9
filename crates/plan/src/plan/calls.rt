ghost use Rattle.std.specs.Prelude.{◌≡◌, ◌≤◌, [], Some, None, slice_index_or, slice_set};
ghost use Rattle.loads.specs.Channels.{blank, content, held_content, found_from};
ghost use Rattle.plan.specs.Ledger.{ledger, guest, weighed, if_ok, admitted, replaced, retired, reading, read_entry, reply, answer_to, next};
ghost use Rattle.plan.specs.Promise.{Kept};
ghost use Rattle.plan.specs.Together.{vacant};
ghost use Rattle.plan.specs.declared.call.Call.TheVariants.{Admit as admit_call, Replace as replace_call, Retire as retire_call};

use super::Plan;
use crate::beside::Beside;
use crate::call::{Answer, Call, Done};
use crate::label::is_label;
use judge::walk::judge;
use loads::entry::Entry;
use loads::refusal::Refusal;
use loads::table::Table;
use theory::load::Load;

// Each contract says again that the guest stays: that is a fact about the call, and no invariant of a plan.
impl<G: Load> Plan<G> {
    /// A plan over any guest, accepted or not, with no tasks.
    pub fn make(load: G) -> Plan<G>
        ensures guest { guest result ≡ load }
        ensures channels { ledger result ≡ blank }
        ensures kept { Kept (G.Load.meaning load) [] [] [] (ledger result) }
    {
        Plan {
            loads: Beside {
                first: Table::new(),
                second: load,
            },
        }
    }

    /// Puts the entry into the channel if the plan is accepted with it there, and gives the busy period then; else leaves
    /// the plan as it was: with `old` in the channel.
    fn change(&mut self, channel: u8, entry: Entry, old: Option<Entry>) -> Result<u64, Refusal>
        requires channel { channel ≤ 63 }
        requires old { held_content old ≡ slice_index_or (ledger self.old) channel None }
        ensures says { result ≡ weighed (G.Load.meaning (guest self.old)) (ledger self.old) channel (content entry) }
        ensures channels { ledger self.new ≡ if_ok result (slice_set (ledger self.old) channel (Some (content entry))) (ledger self.old) }
        ensures guest { guest self.new ≡ guest self.old }
    {
        self.loads.first.put(channel, Some(entry))?;
        match judge(self) {
            Ok(busy) => Ok(busy),
            Err(unfit) => {
                self.loads.first.put(channel, old)?;
                Err(unfit.into())
            }
        }
    }

    /// The checks of `admit` before its verdict: 15, 7, 8.
    pub(super) fn check_vacant(&self, channel: u8, entry: &Entry) -> Result<(), Refusal>
        ensures { result ≡ vacant (ledger self.now) channel (content entry.now) }
    {
        if !is_label(&entry.label) {
            return Err(Refusal::BadLabel);
        }
        if self.loads.first.get(channel)?.is_some() {
            return Err(Refusal::ChannelFilled);
        }
        Ok(())
    }

    /// Puts label and task into an empty channel, and gives the busy period of the plan then, in ticks.
    pub fn admit(&mut self, channel: u8, entry: Entry) -> Result<u64, Refusal>
        ensures says { result ≡ admitted (G.Load.meaning (guest self.old)) (ledger self.old) channel (content entry) }
        ensures channels { ledger self.new ≡ next (G.Load.meaning (guest self.old)) (ledger self.old) (admit_call channel entry) }
        ensures guest { guest self.new ≡ guest self.old }
    {
        self.check_vacant(channel, &entry)?;
        self.change(channel, entry, None)
    }

    /// Puts label and task into a filled channel, in place of what it holds, and gives the busy period of the plan then, in
    /// ticks.
    pub fn replace(&mut self, channel: u8, entry: Entry) -> Result<u64, Refusal>
        ensures says { result ≡ replaced (G.Load.meaning (guest self.old)) (ledger self.old) channel (content entry) }
        ensures channels { ledger self.new ≡ next (G.Load.meaning (guest self.old)) (ledger self.old) (replace_call channel entry) }
        ensures guest { guest self.new ≡ guest self.old }
    {
        if !is_label(&entry.label) {
            return Err(Refusal::BadLabel);
        }
        let old = self.read(channel)?;
        self.change(channel, entry, Some(old))
    }

    /// Empties a filled channel.
    pub fn retire(&mut self, channel: u8) -> Result<(), Refusal>
        ensures says { result ≡ retired (ledger self.old) channel }
        ensures channels { ledger self.new ≡ next (G.Load.meaning (guest self.old)) (ledger self.old) (retire_call channel) }
        ensures guest { guest self.new ≡ guest self.old }
    {
        self.read(channel)?;
        self.loads.first.clear(channel);
        Ok(())
    }

    /// Label and task of a filled channel.
    pub fn read(&self, channel: u8) -> Result<Entry, Refusal>
        ensures { read_entry result ≡ reading (ledger self.now) channel }
    {
        self.loads.first.get(channel)?.ok_or(Refusal::ChannelEmpty)
    }

    /// The lowest filled channel with that label.
    pub fn find(&self, label: &[u8; 16]) -> Option<u8>
        ensures { result ≡ found_from 0 (ledger self.now) label.now }
    {
        self.loads.first.find(label)
    }

    /// Carries out one call.
    pub fn call(&mut self, call: &Call) -> Answer
        ensures says { reply result ≡ answer_to (G.Load.meaning (guest self.old)) (ledger self.old) call.now }
        ensures channels { ledger self.new ≡ next (G.Load.meaning (guest self.old)) (ledger self.old) call.now }
        ensures guest { guest self.new ≡ guest self.old }
    {
        match *call {
            Call::Admit(channel, entry) => self.admit(channel, entry).map(|_| Done::Granted),
            Call::Replace(channel, entry) => self.replace(channel, entry).map(|_| Done::Granted),
            Call::Retire(channel) => self.retire(channel).map(|()| Done::Retired),
            Call::Read(channel) => self.read(channel).map(Done::Found),
        }
    }
}
