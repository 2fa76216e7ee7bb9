ghost use Rattle.std.specs.Prelude.{◌≡◌, [], IfOk};
ghost use Rattle.loads.specs.Making.{frame_params};
ghost use Rattle.loads.specs.Train.{frames_of};
ghost use Rattle.format.specs.Records.{task_rec, frame_rec, task_in, frame_in, start};
ghost use Rattle.format.specs.Decode.{passed, task_piece, frame_piece};
ghost use Rattle.format.specs.Parts.{piece, Whole};
ghost use Rattle.image.specs.Checked.{by_before};
ghost use Rattle.image.specs.Added.{Added};

use super::Records;
use crate::read::{chunk, made_frame};
use crate::read_task::made_task;
use format::before::Before;
use format::fault::RecordFault;
use format::part::{FRAME, Part, TASK};
use loads::frame::Frame;
use loads::refusal::Refusal;
use loads::train::RampTrain;
use plan::label::is_label;

/// The checks on the record of a task, after what came before it: what has come before the next one.
fn pass_task(before: Before, bytes: &[u8; TASK], at: usize) -> Result<Before, RecordFault>
    ensures { result ≡ passed before at (task_rec (task_in bytes.now)) }
{
    if !is_label(&bytes[2..18]) {
        return Err(RecordFault::Refused(Refusal::BadLabel, at));
    }
    let channel = bytes[18];
    if channel > 63 {
        return Err(RecordFault::Refused(Refusal::NoChannel, at));
    }
    if channel < before.least || before.frames > 0 {
        return Err(RecordFault::Refused(Refusal::OutOfOrder, at));
    }
    made_task(bytes).map_err(|e| RecordFault::Refused(e, at))?;
    Ok(Before {
        least: channel + 1,
        ..before
    })
}

/// The checks on the record of a frame, after what came before it: what has come before the next one, and the frame.
fn pass_frame(
    before: Before,
    bytes: &[u8; FRAME],
    at: usize,
) -> Result<(Before, Frame), RecordFault>
    ensures says { by_before result ≡ passed before at (frame_rec (frame_in bytes.now)) }
    ensures holds { IfOk result (λ p. frame_params p.1 ≡ frame_in bytes.now) }
{
    if before.frames >= 16 {
        return Err(RecordFault::Refused(Refusal::TrainFull, at));
    }
    let frame = made_frame(bytes).map_err(|e| RecordFault::Refused(e, at))?;
    let frames = before.frames + 1;
    Ok((Before { frames, ..before }, frame))
}

impl Records {
    /// No records.
    pub(crate) fn new() -> Records
        ensures before { result.before ≡ start }
        ensures tasks { result.tasks ≡ 0 }
        ensures frames { frames_of result.train ≡ [] }
    {
        Records {
            before: Before::default(),
            tasks: 0,
            train: RampTrain::new(),
        }
    }

    /// Adds a task, if its record passes its checks.
    fn add_task(&mut self, bytes: &[u8; TASK], at: usize) -> Result<(), RecordFault>
        ensures { Added self.old (task_piece bytes.now at) result self.new }
    {
        self.before = pass_task(self.before, bytes, at)?;
        self.tasks += 1;
        Ok(())
    }

    /// Adds a frame, if its record passes its checks.
    fn add_frame(&mut self, bytes: &[u8; FRAME], at: usize) -> Result<(), RecordFault>
        ensures { Added self.old (frame_piece bytes.now at) result self.new }
    {
        let (before, frame) = pass_frame(self.before, bytes, at)?;
        // The train has room: the checks on the frame have looked, since 6 comes before 1 to 3.
        self.train
            .push(frame)
            .map_err(|e| RecordFault::Refused(e, at))?;
        self.before = before;
        Ok(())
    }

    /// Adds what a record holds, if it passes its checks. The parts that an image gives are whole.
    pub(crate) fn add(&mut self, part: Part) -> Result<(), RecordFault>
        requires { Whole (piece part) }
        ensures { Added self.old (piece part.entry) result self.new }
    {
        match part {
            Part::Task(bytes, at) => self.add_task(chunk(bytes, 0), at),
            Part::Frame(bytes, at) => self.add_frame(chunk(bytes, 0), at),
        }
    }
}
