use loads::entry::Entry;
use loads::refusal::Refusal;

/// One call on a plan, with its arguments: channel and entry are two, as they are of the plan's own calls.
#[derive(Clone, Copy)]
pub enum Call {
    /// Puts label and task into an empty channel.
    Admit(u8, Entry),
    /// Puts label and task into a filled channel, in place of what it holds.
    Replace(u8, Entry),
    /// Empties a filled channel.
    Retire(u8),
    /// Reads label and task of a filled channel.
    Read(u8),
}

/// What a call that is not refused has done.
#[derive(Clone, Copy)]
pub enum Done {
    /// The task stands in its channel.
    Granted,
    /// The channel is empty.
    Retired,
    /// What the channel holds.
    Found(Entry),
}

/// What a call answers; a refused call has changed nothing.
pub type Answer = Result<Done, Refusal>;
