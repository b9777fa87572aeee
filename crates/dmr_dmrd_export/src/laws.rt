//! Laws of what is exported, as the contracts of functions that do nothing.
ghost use Rattle.dmr_dmrd_export.specs.EachBurst.{EachBurstIsAPacket};

/// Each repeated burst is one packet, in order and with its octets, and nothing else is.
pub fn each_burst_is_a_packet()
    ensures law { EachBurstIsAPacket }
{}
