//! The link control that four embedded fields carry.
ghost use Rattle.std.specs.Prelude.{◌≡◌, Some};
ghost use Rattle.dmr_hearing.specs.Fields.{IsReadFrom, IsReceived};
ghost use Rattle.dmr_link.specs.declared.full_lc.FullLc.{FullLc};

use dmr_embedded::extract;
use dmr_link::FullLc;

/// The link control that the embedded fields of four voice bursts carry, one bit wrong in each row of its table undone; none
/// where they carry none. ETSI TS 102 361-1, clause 7.1.3.
pub fn read_fields(fields: &[u32; 4]) -> Option<FullLc>
    ensures read { IsReadFrom fields.now result }
    ensures damaged { (sent : FullLc) → IsReceived sent fields.now → result ≡ Some sent }
{
    match extract(fields) {
        Ok(octets) => Some(FullLc::from_octets(&octets)),
        Err(_) => None,
    }
}
