ghost use Rattle.std.specs.Prelude.{◌≡◌, ◌+◌, ◌≤◌, length, take, drop};
ghost use Rattle.loads.specs.Making.{made_frame, frame_made};
ghost use Rattle.format.specs.Records.{field as number_in, frame_in, size};
ghost use Rattle.format.specs.Decode.{part, rec_in};
ghost use Rattle.format.specs.Parts.{piece, shown};

use format::fault::ImageFault;
use format::part::{FRAME, Part, TASK};
use loads::frame::Frame;
use loads::refusal::Refusal;

/// The part at `at`, or nothing at the end mark.
#[tactic(auto, unfolding(format::specs::Decode::part))]
pub fn next_part<'a>(image: &'a [u8], at: usize) -> Result<Option<Part<'a>>, ImageFault>
    ensures { shown result ≡ part at (drop at image.now) }
{
    let cut = ImageFault::Cut(at);
    let rest = image.get(at..).ok_or(cut)?;
    match rest {
        [b'T', b'K', ..] => Ok(Some(Part::Task(rest.get(..TASK).ok_or(cut)?, at))),
        [b'R', b'F', ..] => Ok(Some(Part::Frame(rest.get(..FRAME).ok_or(cut)?, at))),
        [b'E', b'N', ..] => Ok(None),
        [_, _, ..] => Err(ImageFault::UnknownMark(at)),
        _ => Err(cut),
    }
}

/// How many bytes the record takes, its mark with it.
pub fn size_of(part: Part) -> usize
    ensures { result ≡ size (rec_in (piece part.entry)) }
{
    match part {
        Part::Task(_, _) => TASK,
        Part::Frame(_, _) => FRAME,
    }
}

/// The N bytes from place `i` on, borrowed.
pub(crate) fn chunk<const N: usize>(bytes: &[u8], i: usize) -> &[u8; N]
    requires { i + N ≤ length bytes.now }
    ensures { result.now ≡ take N (drop i bytes.now) }
{
    bytes[i..].first_chunk().unwrap()
}

/// The N bytes from place `i` on.
pub(crate) fn field<const N: usize>(bytes: &[u8], i: usize) -> [u8; N]
    requires { i + N ≤ length bytes.now }
    ensures { result ≡ take N (drop i bytes.now) }
{
    *chunk(bytes, i)
}

/// The number in the four bytes from place `i` on.
pub(crate) fn number(bytes: &[u8], i: usize) -> u32
    requires { i + 4 ≤ length bytes.now }
    ensures { result ≡ number_in i 4 bytes.now }
{
    u32::from_be_bytes(field(bytes, i))
}

/// The frame in a record, or why it is not made. It is no `TryFrom`, as `made_task` is none.
pub(crate) fn made_frame(bytes: &[u8; FRAME]) -> Result<Frame, Refusal>
    ensures { frame_made result ≡ made_frame (frame_in bytes.now) }
{
    Frame::new(number(bytes, 2), number(bytes, 6), number(bytes, 10))
}
