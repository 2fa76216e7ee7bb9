ghost use Rattle.std.specs.Prelude.{◌≡◌, ◌+◌, ◌≤◌, List, map, length};
ghost use Rattle.loads.specs.Making.{frame_params};
ghost use Rattle.loads.specs.Channels.{blank, content};
ghost use Rattle.loads.specs.Train.{frames_of};
ghost use Rattle.plan.specs.declared.call.Call.{Call as a_call};
ghost use Rattle.plan.specs.Ledger.{ledger, after, guest};
ghost use Rattle.format.specs.Records.{task_bytes, frame_bytes};
ghost use Rattle.format.specs.Encode.{encode, placed_in};
ghost use Rattle.format.specs.Statements.{ReadsAgain};
ghost use Rattle.format.specs.Writes.{written, tasks_bytes, frames_bytes};
ghost use Rattle.image.specs.Writer.{Wrote};

use format::part::{FRAME, TASK};
use loads::entry::Entry;
use loads::frame::Frame;
use loads::refusal::Refusal;
use loads::train::RampTrain;
use plan::plan::Plan;
use theory::load::Load;

/// A lent buffer, and where the next byte goes. The library's `Write` for a buffer can fail, and does not say whose
/// buffer it is. Each method says that the buffer stays the same one: that is a fact about the call.
#[derive(Drop)]
struct Writer<'a> {
    out: &'a mut [u8],
    at: usize,
}

impl<'a> Writer<'a> {
    /// Writes `src` and moves behind it.
    fn put(&mut self, src: &[u8])
        requires { self.old.at + length src.now ≤ length self.old.out.now }
        ensures same_buffer { self.new.out.ghost_name ≡ self.old.out.ghost_name }
        ensures wrote { Wrote self.old src.now self.new }
    {
        let end = self.at + src.len();
        self.out[self.at..end].copy_from_slice(src);
        self.at = end;
    }

    /// Writes the record of a frame.
    fn put_frame(&mut self, f: &Frame)
        requires { self.old.at + FRAME ≤ length self.old.out.now }
        ensures same_buffer { self.new.out.ghost_name ≡ self.old.out.ghost_name }
        ensures wrote { Wrote self.old (frame_bytes (frame_params f.now)) self.new }
    {
        self.put(b"RF");
        self.put(&f.cost().to_be_bytes());
        self.put(&f.deadline().to_be_bytes());
        self.put(&f.gap().to_be_bytes());
    }

    /// Writes the record of what stands in a channel.
    fn put_task(&mut self, channel: u8, e: &Entry)
        requires { self.old.at + TASK ≤ length self.old.out.now }
        ensures same_buffer { self.new.out.ghost_name ≡ self.old.out.ghost_name }
        ensures wrote { Wrote self.old (task_bytes (placed_in channel (content e.now))) self.new }
    {
        self.put(b"TK");
        self.put(&e.label);
        self.put(&[channel]);
        self.put(&e.task.cost().to_be_bytes());
        self.put(&e.task.period().to_be_bytes());
        self.put(&e.task.deadline().to_be_bytes());
        self.put(&e.task.jitter().to_be_bytes());
        self.put(&e.task.section().to_be_bytes());
    }

    /// Writes the tasks of a plan by rising channel: over the channels, since a plan lends what they hold one by one.
    fn put_tasks<G: Load>(&mut self, plan: &Plan<G>)
        requires { self.old.at + length (tasks_bytes 0 (ledger plan.now)) ≤ length self.old.out.now }
        ensures same_buffer { self.new.out.ghost_name ≡ self.old.out.ghost_name }
        ensures wrote { Wrote self.old (tasks_bytes 0 (ledger plan.now)) self.new }
    {
        for channel in 0..64u8 {
            if let Ok(entry) = plan.read(channel) {
                self.put_task(channel, &entry);
            }
        }
    }

    /// Writes the frames.
    fn put_frames(&mut self, frames: &[Frame])
        requires { self.old.at + length (frames_bytes (map frame_params frames.now)) ≤ length self.old.out.now }
        ensures same_buffer { self.new.out.ghost_name ≡ self.old.out.ghost_name }
        ensures wrote { Wrote self.old (frames_bytes (map frame_params frames.now)) self.new }
    {
        for frame in frames {
            self.put_frame(frame);
        }
    }
}

/// How many bytes the tasks of a plan take.
fn tasks_len<G: Load>(plan: &Plan<G>) -> usize
    ensures value { result ≡ length (tasks_bytes 0 (ledger plan.now)) }
    ensures bound { result ≤ 2368 }
{
    let filled = (0..64u8)
        .filter(|channel| plan.read(*channel).is_ok())
        .count();
    TASK * filled
}

/// Writes the image of a plan over a train into a lent buffer and gives its length; later bytes stay. Where the buffer
/// is shorter than the image, it refuses with 17 and writes nothing. A plan does not carry the list of its calls, so
/// `back` speaks of the caller's.
pub fn write<G: Load>(plan: &Plan<G>, train: &RampTrain, out: &mut [u8]) -> Result<usize, Refusal>
    ensures says { (result, out.new) ≡ written (encode (ledger plan.now) (frames_of train.now)) out.old }
    ensures back { (before : List a_call) → ledger plan.now ≡ after (G.Load.meaning (guest plan.now)) blank before
        → ReadsAgain (G.Load.meaning (guest plan.now)) (ledger plan.now) (frames_of train.now) }
{
    let frames = train.frames();
    let total = tasks_len(plan) + FRAME * frames.len() + 2;
    if total > out.len() {
        return Err(Refusal::OutputShort);
    }
    let mut writer = Writer { out, at: 0 };
    writer.put_tasks(plan);
    writer.put_frames(frames);
    writer.put(b"EN");
    Ok(total)
}
