//! Bursts that are compared.
ghost use Rattle.std.specs.Prelude.{◌≡◌, ◌-◌, ◌^◌, ◌<◌};
ghost use Rattle.dmr_compare.specs.Slots.{IsListedAt, bare_slot, slot_text};

use dmr_listing::{BurstText, ListedBurst, RecordingView};
use dmr_recording::RecordedBurst;
use std::fmt;

/// The next slot of a recording, and what a listing shows of it.
pub(crate) fn list_slot(
    view: &mut RecordingView,
    slot: Option<RecordedBurst>,
) -> Option<ListedBurst>
    requires room { view.old.slots < 2 ^ 32 - 1 }
    ensures slot { bare_slot result ≡ slot }
    ensures line { IsListedAt view.old result view.new }
{
    match slot {
        None => {
            view.pass();
            None
        }
        Some(burst) => {
            let line = view.line(&burst);
            Some(ListedBurst { burst, line })
        }
    }
}

/// What a listing shows of a slot from the side of its burst on.
#[derive(Drop)]
pub(crate) struct SlotText<'a>(pub(crate) &'a Option<ListedBurst>);

impl fmt::Display for SlotText<'_> {
    ghost output = { λ slot. slot_text slot.0.now };

    fn fmt<W: fmt::Write>(&self, f: &mut fmt::Formatter<W>) -> fmt::Result {
        match self.0 {
            Some(ListedBurst { line, .. }) => write!(f, "{}", BurstText(line)),
            None => write!(f, "silence"),
        }
    }
}
