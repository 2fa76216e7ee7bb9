ghost use Rattle.std.specs.Prelude.{◌≡◌, Some};
ghost use Rattle.std.specs.Iterator.{YieldsFirstBy, item_count};
ghost use Rattle.format.specs.Parts.{pieces_from, seen};
ghost use Rattle.image.specs.Parts.{rest};

use crate::read::{next_part, size_of};
use format::fault::ImageFault;
use format::part::Part;

/// The parts of an image one after another, up to the end mark. Where the bytes are at fault, the fault comes last; one
/// fault is that bytes follow the end mark.
#[derive(Drop)]
pub struct Parts<'a> {
    image: &'a [u8],

    /// Where the next part begins, unless there is none.
    at: Option<usize>,
}

impl<'a> Parts<'a> {
    /// All parts of the image.
    pub fn new(image: &'a [u8]) -> Parts<'a>
        ensures { rest result ≡ pieces_from image.now (Some 0) }
    {
        Parts { image, at: Some(0) }
    }
}

impl<'a> Iterator for Parts<'a> {
    type Item = Result<Part<'a>, ImageFault>;

    ghost next_gives = { YieldsFirstBy seen rest };

    ghost remaining = { item_count rest };

    fn next(&mut self) -> Option<Result<Part<'a>, ImageFault>> {
        let at = self.at.take()?;
        match next_part(self.image, at) {
            Ok(Some(part)) => {
                self.at = Some(at + size_of(part));
                Some(Ok(part))
            }
            Ok(None) if at + 2 < self.image.len() => Some(Err(ImageFault::Trailing(at + 2))),
            Ok(None) => None,
            Err(fault) => Some(Err(fault)),
        }
    }
}
