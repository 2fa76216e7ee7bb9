ghost use Rattle.std.specs.Prelude.{◌≡◌, ◌≤◌, List, map, length, Some, None, slice_set};
ghost use Rattle.loads.specs.Channels.{blank, content};
ghost use Rattle.plan.specs.declared.call.Call.{Call as a_call};
ghost use Rattle.plan.specs.Ledger.{Ledger, ledger, guest, if_ok, after, answers_to};
ghost use Rattle.plan.specs.Admissions.{placed, in_turn, tried_calls};
ghost use Rattle.plan.specs.Promise.{Kept};
ghost use Rattle.plan.specs.Together.{vacant, put_all, EachVacant, PutIn, Tried, Together};

use super::Plan;
use loads::entry::Entry;
use loads::refusal::Refusal;
use theory::load::Load;

impl<G: Load> Plan<G> {
    /// Puts an entry into a channel without a verdict, unless 15, 7 or 8 keeps it out.
    fn put_one(&mut self, channel: u8, entry: Entry) -> Result<(), Refusal>
        ensures says { result ≡ vacant (ledger self.old) channel (content entry) }
        ensures channels { ledger self.new ≡ if_ok result (slice_set (ledger self.old) channel (Some (content entry))) (ledger self.old) }
        ensures guest { guest self.new ≡ guest self.old }
    {
        self.check_vacant(channel, &entry)?;
        self.loads.first.put(channel, Some(entry))
    }

    /// Puts entries into their channels without a verdict, up to the first that 15, 7 or 8 keeps out: its place, and why.
    fn put_in(&mut self, entries: &[(u8, Entry)]) -> Result<(), (usize, Refusal)>
        ensures says { PutIn (ledger self.old) (map placed entries.now) result (ledger self.new) }
        ensures guest { guest self.new ≡ guest self.old }
    {
        for (n, (channel, entry)) in entries.iter().enumerate() {
            self.put_one(*channel, *entry).map_err(|r| (n, r))?;
        }
        Ok(())
    }

    /// Takes out again what was put in.
    fn take_out(&mut self, entries: &[(u8, Entry)])
        ensures says { (l : Ledger) → EachVacant l (map placed entries.now) → ledger self.old ≡ put_all l (map placed entries.now) → ledger self.new ≡ l }
        ensures guest { guest self.new ≡ guest self.old }
    {
        for n in (0..entries.len()).rev() {
            self.loads.first.clear(entries[n].0);
        }
    }

    /// Puts all but the last in and admits that one, which judges them all. Where one is refused, its place and why it is
    /// refused where all before it are granted; those before it are in then.
    fn admit_last(&mut self, entries: &[(u8, Entry)]) -> Result<u64, (usize, Refusal)>
        requires some { 1 ≤ length entries.now }
        ensures says { Tried (G.Load.meaning (guest self.old)) (ledger self.old) (map placed entries.now) result (ledger self.new) }
        ensures guest { guest self.new ≡ guest self.old }
    {
        let last = entries.len() - 1;
        self.put_in(&entries[..last])?;
        let (channel, entry) = entries[last];
        self.admit(channel, entry).map_err(|r| (last, r))
    }

    /// Admits entries at once, or none of them.
    fn admit_together(&mut self, entries: &[(u8, Entry)]) -> Result<u64, (usize, Refusal)>
        requires some { 1 ≤ length entries.now }
        ensures says { Together (G.Load.meaning (guest self.old)) (ledger self.old) (map placed entries.now) result (ledger self.new) }
        ensures guest { guest self.new ≡ guest self.old }
    {
        let answer = self.admit_last(entries);
        if let Err((place, _)) = answer {
            self.take_out(&entries[..place]);
        }
        answer
    }

    /// Admits several entries, each to its channel, as one after another would be admitted up to the first that is refused:
    /// the busy period of the plan with all of them, in ticks (none where there are no entries), or the place of the first
    /// that is refused, counted from 0, and why. The entries before it stay in the plan.
    ///
    /// All are put in and judged at once. Where that refuses they are taken out again, and the same is done with the first
    /// half of what is left, and so on: entries that are accepted together are accepted one after another too.
    pub fn admit_all(&mut self, entries: &[(u8, Entry)]) -> Result<Option<u64>, (usize, Refusal)>
        ensures says { (result, ledger self.new) ≡ in_turn (G.Load.meaning (guest self.old)) 0 None (map placed entries.now) (ledger self.old) }
        ensures calls { ledger self.new ≡ after (G.Load.meaning (guest self.old)) (ledger self.old) (tried_calls result entries.now) }
        ensures guest { guest self.new ≡ guest self.old }
        ensures kept { (before : List a_call) → ledger self.old ≡ after (G.Load.meaning (guest self.old)) blank before
            → Kept (G.Load.meaning (guest self.old)) before (tried_calls result entries.now)
            (answers_to (G.Load.meaning (guest self.old)) (ledger self.old) (tried_calls result entries.now)) (ledger self.new) }
    {
        let mut kept = 0;
        let mut busy = None;
        // The entry at `until` is refused as `why` says, if all before it are granted; there is none at the end.
        let mut until = entries.len();
        let mut why = None;
        while kept < until {
            let end = match why {
                None => until,
                Some(_) => kept + (until - kept).div_ceil(2),
            };
            match self.admit_together(&entries[kept..end]) {
                Ok(w) => {
                    kept = end;
                    busy = Some(w);
                }
                Err((place, refusal)) => {
                    until = kept + place;
                    why = Some(refusal);
                }
            }
        }
        match why {
            None => Ok(busy),
            Some(refusal) => Err((until, refusal)),
        }
    }
}
