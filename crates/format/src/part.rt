/// How many bytes the record of a task takes, its mark with it.
pub const TASK: usize = 37;

/// How many bytes the record of a frame takes, its mark with it.
pub const FRAME: usize = 14;

/// One record of the image: its bytes, its mark with them, borrowed from the image, and their offset.
#[derive(Clone, Copy)]
pub enum Part<'a> {
    /// The 37 bytes of a task.
    Task(&'a [u8], usize),
    /// The 14 bytes of a frame.
    Frame(&'a [u8], usize),
}
