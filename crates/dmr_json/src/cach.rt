//! What an object has of the CACH before a downlink burst.
use dmr_listing::{Tact, read_tact};
use std::fmt;

/// What a CACH says; on the uplink there is none.
#[derive(Drop)]
pub(crate) struct CachKey(pub(crate) Option<[u8; 3]>);

/// AT, TC and LCSS.
#[derive(Drop)]
struct TactObject(Tact);

impl fmt::Display for TactObject {
    fn fmt<W: fmt::Write>(&self, f: &mut fmt::Formatter<W>) -> fmt::Result {
        let at = u8::from(self.0.at);
        let tc = u8::from(self.0.tc);
        let lcss = self.0.lcss;
        write!(f, "{{\"at\":{at},\"tc\":{tc},\"lcss\":{lcss}}}")
    }
}

/// The key of a CACH that is there.
fn write_cach<W: fmt::Write>(cach: &[u8; 3], f: &mut fmt::Formatter<W>) -> fmt::Result {
    match read_tact(cach) {
        Some(tact) => write!(f, ",\"cach\":{}", TactObject(tact)),
        // No seven bits are further than one from every word.
        None => write!(f, ",\"cach\":null"),
    }
}

impl fmt::Display for CachKey {
    fn fmt<W: fmt::Write>(&self, f: &mut fmt::Formatter<W>) -> fmt::Result {
        match &self.0 {
            Some(cach) => write_cach(cach, f),
            None => Ok(()),
        }
    }
}
