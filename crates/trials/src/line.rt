ghost use Rattle.std.specs.Prelude.{◌≡◌, IfOk, vec_items};
ghost use Rattle.std.specs.Option.{option_map};
ghost use Rattle.trials.specs.Hex.{unhex};

use std::alloc::{AllocError, Global};

/// How many bytes are read at a time.
const BLOCK: usize = 256;

/// The bytes that a text writes in hexadecimal, two digits each; nothing if it holds anything else.
pub(crate) fn bytes_in(heap: Global, text: &[u8]) -> Result<Option<Vec<u8>>, AllocError>
    ensures { IfOk result (λ o. option_map vec_items o ≡ unhex text.now) }
{
    // By blocks, since `hex::decode` asks for the memory of all bytes before it reads a digit.
    let mut block = [0u8; BLOCK];
    let mut bytes = Vec::new(heap);
    for part in text.chunks(2 * BLOCK) {
        let read = &mut block[..part.len() / 2];
        if hex::decode_to_slice(part, read).is_err() {
            return Ok(None);
        }
        bytes.extend_from_slice(read)?;
    }
    Ok(Some(bytes))
}
