//! Laws of places, as the contracts of functions that do nothing.
//!
//! The rule takes numbers and times together, so that small delays and lost packets move no burst.

ghost use Rattle.std.specs.Prelude.{◌≡◌, ◌↔◌, ℕ, List, ◌∷◌, Some, None};
ghost use Rattle.dmr_capture.specs.State.{CapturedPacket};
ghost use Rattle.dmr_dmrd.specs.Holding.{held_of_capture, no_hold, slot_held, slot_in};
ghost use Rattle.dmr_dmrd.specs.Sending.{AreSentFrom, SentPacket, frames_placed, frames_sent};
ghost use Rattle.dmr_dmrd.specs.Standing.{IsPlacedAmong};
ghost use Rattle.dmr_dmrd.specs.declared.hold.ImportSettings.{ImportSettings};
ghost use Rattle.dmr_dmrd.specs.declared.packet.Slot.{Slot};

/// Packets whose delays differ by less than 30 milliseconds are placed in the frames of sending, counted from that of the first.
/// Any of them may be missing, and streams may touch, take turns and come back. In front of data, no single frame alone may be left
/// out in which nothing was sent.
pub fn packets_are_placed_in_their_frames()
    ensures placed { (settings : ImportSettings) (least : ℕ) (s : SentPacket) (rest : List SentPacket)
        → AreSentFrom least s.frame None None (s ∷ rest)
        → frames_placed settings (no_hold settings) (s ∷ rest) ≡ frames_sent s.frame (s ∷ rest) }
{}

/// A burst stands in a frame of a slot exactly where a packet that is taken is placed there and has that burst. So no two packets
/// are placed in one frame of a slot, and the frames between are silent.
pub fn bursts_stand_where_their_packets_are_placed()
    ensures stands { (settings : ImportSettings) (packets : List CapturedPacket) (slot : Slot) (frame : ℕ) (burst : List ℕ)
        → (slot_in (slot_held slot (held_of_capture settings packets)).line frame ≡ Some burst)
        ↔ IsPlacedAmong settings (no_hold settings) packets slot frame burst }
{}
