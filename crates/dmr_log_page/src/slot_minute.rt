//! A minute of a slot.
use crate::frame_kind::FrameKind;
use dmr_log::{Repeated, SlotTold, Subject, Transmission};
use std::alloc::{AllocError, Global};

/// How many frames a minute has. ETSI TS 102 361-1, clause 4.2.2: a frame takes 60 ms.
pub(crate) const FRAMES: usize = 1000;

/// What is kept of a slot for the picture of a minute. Its memory is taken once, and has room for a minute.
#[derive(Drop)]
pub(crate) struct SlotMinute {
    /// What is shown of each frame.
    kinds: Vec<Option<FrameKind>>,
    /// The transmissions that have frames in the minute, as far as they have come.
    transmissions: Vec<Transmission>,
}

impl SlotMinute {
    /// A minute of which nothing is known.
    pub(crate) fn new(alloc: Global) -> Result<SlotMinute, AllocError> {
        Ok(SlotMinute {
            kinds: vec![in alloc; None; FRAMES]?,
            transmissions: Vec::with_capacity(alloc, FRAMES)?,
        })
    }

    /// Forgets all.
    pub(crate) fn clear(&mut self) {
        for kind in self.kinds.iter_mut() {
            *kind = None;
        }
        self.transmissions.clear();
    }

    /// What is shown of each frame.
    pub(crate) fn kinds(&self) -> &[Option<FrameKind>] {
        self.kinds.as_slice()
    }

    /// The transmissions that have frames in it, in order.
    pub(crate) fn transmissions(&self) -> &[Transmission] {
        self.transmissions.as_slice()
    }

    /// The last frames in front of this one were preambles of a packet.
    fn paint_preambles(&mut self, at: usize, count: usize) {
        let first = at.saturating_sub(count);
        for kind in self.kinds.iter_mut().take(at).skip(first) {
            if *kind == Some(FrameKind::Control) {
                *kind = Some(FrameKind::Packet);
            }
        }
    }

    /// This is open behind a frame: the transmission that was, or another.
    fn note(&mut self, transmission: &Transmission) -> Result<(), AllocError> {
        let is_known = match self.transmissions.as_slice().last() {
            Some(last) => last.span.first == transmission.span.first,
            None => false,
        };
        if is_known {
            let _shorter = self.transmissions.pop();
        }
        self.transmissions.push(*transmission)?;
        Ok(())
    }

    /// Takes what is told of a frame, which is the one at this place of the minute.
    pub(crate) fn take(&mut self, at: usize, told: &SlotTold) -> Result<(), AllocError> {
        if let Some(kind) = self.kinds.get_mut(at) {
            *kind = FrameKind::of_told(told);
        }
        let Some(transmission) = &told.current else {
            return Ok(());
        };
        let is_packet = matches!(transmission.subject, Subject::Packet(_));
        if is_packet && matches!(told.repeated, Repeated::DataHeader(_)) {
            self.paint_preambles(at, transmission.span.frames.saturating_sub(1) as usize);
        }
        self.note(transmission)
    }
}
