//! What an object has of a link control.
use crate::values::Hex;
use dmr_link::{FullLc, VoiceLc};
use std::fmt;

/// A link control: opcode and feature set, and of a call its options and addresses, of any other its seven octets.
#[derive(Drop)]
pub(crate) struct LinkControl(pub(crate) FullLc);

/// The keys of a call.
#[derive(Drop)]
struct CallKeys(VoiceLc);

impl fmt::Display for CallKeys {
    fn fmt<W: fmt::Write>(&self, f: &mut fmt::Formatter<W>) -> fmt::Result {
        let call = self.0;
        let options = call.options.0;
        write!(f, "\"options\":{options},")?;
        write!(f, "\"target\":{},\"source\":{}", call.target, call.source)
    }
}

impl fmt::Display for LinkControl {
    fn fmt<W: fmt::Write>(&self, f: &mut fmt::Formatter<W>) -> fmt::Result {
        let lc = self.0;
        write!(f, "{{\"flco\":{},\"fid\":{},", lc.flco, lc.fid)?;
        match lc.voice() {
            Some(call) => write!(f, "{}}}", CallKeys(call)),
            None => write!(f, "\"octets\":{}}}", Hex(&lc.body)),
        }
    }
}
