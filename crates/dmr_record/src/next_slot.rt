//! What stands next in a recording.

/// What stands next in a recording whose slots hold such bursts. It is this project's own.
#[derive(Clone, Copy, Debug, PartialEq, Eq, Drop)]
pub enum NextSlot<B> {
    /// A slot: a burst, or silence.
    Slot(Option<B>),
    /// No slot: the recording is at its end.
    End,
}
