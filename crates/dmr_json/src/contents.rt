//! What an object has of the information of a data burst.
use crate::control_block::ControlBlock;
use crate::data_header::DataHeader;
use crate::link_control::LinkControl;
use crate::values::Hex;
use dmr_listing::Contents;
use std::fmt;

/// The key for what the information holds: its own for each that is read, `octets` for twelve octets with no meaning here,
/// `unsealed` for such as no check seals, and null octets where none can be read. Idle information has none, nor has what is in no
/// code here.
#[derive(Drop)]
pub(crate) struct ContentsKey(pub(crate) Contents);

impl fmt::Display for ContentsKey {
    fn fmt<W: fmt::Write>(&self, f: &mut fmt::Formatter<W>) -> fmt::Result {
        match &self.0 {
            Contents::LinkControl(lc) => write!(f, ",\"lc\":{}", LinkControl(*lc)),
            Contents::ControlBlock(block) => write!(f, ",\"csbk\":{}", ControlBlock(*block)),
            Contents::DataHeader(header) => write!(f, ",\"header\":{}", DataHeader(*header)),
            Contents::OtherFormat(octets) => {
                let format = octets[0] % 16;
                write!(
                    f,
                    ",\"header\":{{\"format\":{format},\"octets\":{}}}",
                    Hex(octets)
                )
            }
            Contents::Unsealed(octets) => write!(f, ",\"unsealed\":{}", Hex(octets)),
            Contents::Octets(octets) => write!(f, ",\"octets\":{}", Hex(octets)),
            Contents::Unreadable => write!(f, ",\"octets\":null"),
            Contents::Idle | Contents::AsReceived => Ok(()),
        }
    }
}
