//! The entry for a host in C: a static library with one exported call, over the library `image`.

#![tactic(auto)]

ghost use Rattle.std.specs.Prelude.{◌≡◌, take};
ghost use Rattle.image.specs.Verdict.{judged, told, code_of};

use image::verdict;

/// The verdict of the first 4,096 bytes of an image as one number, for a host in C: 0 for yes, 11 for late, else the
/// refusal's number. A crate is a library or a static library, so the call of `image` stands here again.
#[unsafe(no_mangle)]
pub extern "C" fn lukwaizo_check(image: &[u8]) -> u32
    ensures { result ≡ code_of (told (judged (take 4096 image.now))) }
{
    verdict::lukwaizo_check(image)
}
