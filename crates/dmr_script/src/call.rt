//! Calls as a script says them.
use crate::shape::CallShape;
use dmr_link::FullLc;

/// A call. What a script doesn't say of it is as a mobile station sends it.
#[derive(Drop, PartialEq, Eq)]
pub struct Call {
    /// The link control of its headers and terminators, and of superframes that carry the call's own.
    pub link_control: FullLc,
    /// Whether PI is set in the EMBs of its voice bursts. ETSI TS 102 361-1, clause 9.1.2.
    pub pi: bool,
    /// The ten octets of its PI headers: zeros where the script names no key.
    pub key: [u8; 10],
    /// What its superframes carry in turn, from the first one, and again from the front where they are more. Where there is
    /// nothing, each carries the call's own link control.
    pub carried: Vec<Carried>,
    /// Which of its bursts are sent.
    pub shape: CallShape,
}

/// What a superframe carries in the embedded fields of its places B to E.
#[derive(Clone, Copy, PartialEq, Eq)]
pub enum Carried {
    /// The link control of the call.
    Own,
    /// None: LCSS 0 in B to E.
    Nothing,
    /// This link control.
    LinkControl(FullLc),
}
