//! Laws of windows, as the contracts of functions that do nothing.
ghost use Rattle.std.specs.Prelude.{◌≡◌, ◌≤◌, List, length};
ghost use Rattle.dmr_listing.specs.Lines.{SlotPast};
ghost use Rattle.dmr_web.specs.LookingBack.{SlotFrame, behind_frames};

/// Behind six frames of a slot a line shows the same, whatever came before them: what is kept of the slot hangs on these six alone.
/// Of each slot the newest four frames are kept for a link control, and how far a superframe has come, which is six frames long.
pub fn lines_look_six_frames_back()
    ensures law { (p q : SlotPast) (frames : List SlotFrame) → length p.fragments ≡ 4 → length q.fragments ≡ 4
        → 6 ≤ length frames → behind_frames frames p ≡ behind_frames frames q }
{}
