//! The picture of a minute.
use crate::clock::ToTheSecond;
use crate::frame_kind::FrameKind;
use crate::label::{Label, is_call};
use crate::slot_minute::SlotMinute;
use dmr_log::Transmission;
use dmr_log_forms::{Begin, StartTime};
use dmr_recording::Place;
use std::fmt;

/// How many frames a row has: those of 30 s.
const ROW_FRAMES: usize = 500;

/// How far apart the frames of a row are, in hundredths of a unit, and where the first begins.
const STEP: u64 = 192;

const MARGIN: u64 = 6400;

/// How long a row is.
const LENGTH: u64 = 96_000;

/// Hundredths of a unit, printed to the tenth.
#[derive(Clone, Copy, Drop)]
struct Tenths(u64);

impl fmt::Display for Tenths {
    fn fmt<W: fmt::Write>(&self, f: &mut fmt::Formatter<W>) -> fmt::Result {
        let tenths = self.0.saturating_add(5) / 10;
        write!(f, "{}.{}", tenths / 10, tenths % 10)
    }
}

/// Equal frames in a row, which are one bar.
#[derive(Clone, Copy, Drop)]
struct Bar {
    kind: FrameKind,
    /// The first of them, from the begin of the row on.
    first: u64,
    /// How many there are.
    frames: u64,
}

/// A bar at this height of a row.
#[derive(Clone, Copy, Drop)]
struct BarAt {
    bar: Bar,
    top: u32,
}

impl fmt::Display for BarAt {
    fn fmt<W: fmt::Write>(&self, f: &mut fmt::Formatter<W>) -> fmt::Result {
        let Bar {
            kind,
            first,
            frames,
        } = self.bar;
        let left = Tenths(MARGIN.saturating_add(first.saturating_mul(STEP)));
        let width = Tenths(frames.saturating_mul(STEP));
        let top = self.top;
        let colour = kind.colour();
        write!(f, "<rect x=\"{left}\" y=\"{top}\" width=\"{width}\" ")?;
        write!(f, "height=\"16\" fill=\"{colour}\"/>\n")
    }
}

/// A row of a slot.
#[derive(Clone, Copy, Drop)]
pub(crate) struct SlotRow<'a> {
    /// The slot: 1 or 2.
    pub(crate) slot: u8,
    /// The first frame of the row.
    pub(crate) first: u32,
    /// Which frame of the minute that is.
    pub(crate) from: usize,
    /// The minute.
    pub(crate) minute: &'a SlotMinute,
}

impl<'a> SlotRow<'a> {
    /// Whether something is shown.
    fn is_shown(&self) -> bool {
        self.minute
            .kinds()
            .iter()
            .skip(self.from)
            .take(ROW_FRAMES)
            .any(|kind| kind.is_some())
    }

    /// How far down the bars of the slot are.
    fn bars_top(&self) -> u32 {
        if self.slot == 1 { 36 } else { 78 }
    }

    /// Writes the bars.
    fn write_bars<W: fmt::Write>(&self, f: &mut fmt::Formatter<W>) -> fmt::Result {
        let top = self.bars_top();
        let mut open: Option<Bar> = None;
        let mut at = 0u64;
        for kind in self.minute.kinds().iter().skip(self.from).take(ROW_FRAMES) {
            let next = match (open, *kind) {
                (Some(bar), Some(kind)) if bar.kind == kind => Some(Bar {
                    frames: bar.frames.saturating_add(1),
                    ..bar
                }),
                (_, Some(kind)) => Some(Bar {
                    kind,
                    first: at,
                    frames: 1,
                }),
                (_, None) => None,
            };
            if let Some(bar) = ended_bar(open, next) {
                write!(f, "{}", BarAt { bar, top })?;
            }
            open = next;
            at = at.saturating_add(1);
        }
        match open {
            Some(bar) => write!(f, "{}", BarAt { bar, top }),
            None => Ok(()),
        }
    }

    /// Where a frame stands behind the begin of the row, in hundredths of a unit.
    fn left_of(&self, frame: u32) -> u64 {
        u64::from(frame.saturating_sub(self.first)).saturating_mul(STEP)
    }

    /// Whether a transmission has a frame in the row.
    fn has(&self, transmission: &Transmission) -> bool {
        let span = &transmission.span;
        let behind = span.first.saturating_add(span.frames);
        behind > self.first && self.left_of(span.first) < LENGTH
    }

    /// Where a label of a transmission in front of these has to end: where the next call begins, and where the next transmission of
    /// any kind does if it isn't of a call. At last the row ends.
    fn right_of(&self, transmission: &Transmission, others: &[Transmission]) -> u64 {
        let of_call = is_call(transmission);
        match others.iter().find(|other| is_call(other) || !of_call) {
            Some(next) => self.left_of(next.span.first).min(LENGTH),
            None => LENGTH,
        }
    }

    /// The label of a transmission in front of these.
    fn label(&self, transmission: &'a Transmission, others: &[Transmission]) -> Label<'a> {
        Label {
            transmission,
            goes_on: transmission.span.first < self.first,
            left: self.left_of(transmission.span.first),
            right: self.right_of(transmission, others),
        }
    }

    /// Writes the labels.
    fn write_labels<W: fmt::Write>(&self, f: &mut fmt::Formatter<W>) -> fmt::Result {
        let top = self.bars_top().saturating_sub(5);
        let mut taken = 0;
        let mut others = self.minute.transmissions();
        while let Some((transmission, rest)) = others.split_first() {
            others = rest;
            if !self.has(transmission) {
                continue;
            }
            let label = self.label(transmission, rest);
            if let Some(text) = label.shown(taken) {
                let left = Tenths(MARGIN.saturating_add(label.left));
                let shown = text.as_str();
                write!(
                    f,
                    "<text class=\"l\" x=\"{left}\" y=\"{top}\">{shown}</text>\n"
                )?;
                taken = label.end(&text);
            }
        }
        Ok(())
    }
}

/// The bar that ends where this is open next.
fn ended_bar(open: Option<Bar>, next: Option<Bar>) -> Option<Bar> {
    match (open, next) {
        (Some(bar), Some(other)) if bar.first == other.first => None,
        (open, _) => open,
    }
}

impl fmt::Display for SlotRow<'_> {
    fn fmt<W: fmt::Write>(&self, f: &mut fmt::Formatter<W>) -> fmt::Result {
        let slot = self.slot;
        let top = self.bars_top();
        let middle = top.saturating_add(8);
        let bottom = top.saturating_add(16);
        write!(
            f,
            "<text class=\"t\" x=\"8\" y=\"{middle}\">slot {slot}</text>\n"
        )?;
        write!(f, "<path d=\"M64 {bottom}H1024.0\" stroke=\"#d5d5d5\"/>\n")?;
        self.write_bars(f)?;
        self.write_labels(f)
    }
}

/// A row of both slots.
#[derive(Clone, Copy, Drop)]
pub(crate) struct PictureRow<'a> {
    /// When the recording began, if that is known.
    pub(crate) start: Option<StartTime>,
    pub(crate) slot_1: SlotRow<'a>,
    pub(crate) slot_2: SlotRow<'a>,
}

impl PictureRow<'_> {
    /// Whether something is shown.
    pub(crate) fn is_shown(&self) -> bool {
        self.slot_1.is_shown() || self.slot_2.is_shown()
    }

    /// The begin of the row.
    fn begin(&self) -> u64 {
        let place = Place {
            frame: self.slot_1.first,
            slot: 1,
        };
        place.milliseconds()
    }
}

/// A tick, that many times five seconds behind the begin of its row.
#[derive(Clone, Copy, Drop)]
struct Tick {
    start: Option<StartTime>,
    /// The begin of its row.
    begin: u64,
    number: u64,
}

impl fmt::Display for Tick {
    fn fmt<W: fmt::Write>(&self, f: &mut fmt::Formatter<W>) -> fmt::Result {
        let left = Tenths(MARGIN.saturating_add(self.number.saturating_mul(16_000)));
        let time = ToTheSecond(Begin {
            start: self.start,
            milliseconds: self.begin.saturating_add(self.number.saturating_mul(5000)),
        });
        write!(f, "<path d=\"M{left} 14V94\" stroke=\"#e3e3e3\"/>\n")?;
        write!(f, "<text class=\"t\" x=\"{left}\" y=\"10\" ")?;
        write!(f, "text-anchor=\"middle\">{time}</text>\n")
    }
}

impl fmt::Display for PictureRow<'_> {
    fn fmt<W: fmt::Write>(&self, f: &mut fmt::Formatter<W>) -> fmt::Result {
        let start = self.start;
        let begin = self.begin();
        for number in 0..7u64 {
            let tick = Tick {
                start,
                begin,
                number,
            };
            write!(f, "{tick}")?;
        }
        write!(f, "{}{}", self.slot_1, self.slot_2)
    }
}

/// The picture of a minute: its rows in which something is shown.
#[derive(Clone, Copy, Drop)]
pub(crate) struct MinutePicture<'a> {
    pub(crate) rows: [PictureRow<'a>; 2],
}

impl MinutePicture<'_> {
    /// Whether something is shown.
    pub(crate) fn is_shown(&self) -> bool {
        self.shown() > 0
    }

    /// In how many rows something is shown.
    fn shown(&self) -> u64 {
        let [first, second] = &self.rows;
        u64::from(first.is_shown()) + u64::from(second.is_shown())
    }
}

impl fmt::Display for MinutePicture<'_> {
    fn fmt<W: fmt::Write>(&self, f: &mut fmt::Formatter<W>) -> fmt::Result {
        let height = self.shown().saturating_mul(106);
        if height == 0 {
            return Ok(());
        }
        write!(f, "<svg viewBox=\"0 0 1040 {height}\">\n")?;
        let mut down = 0u64;
        for row in &self.rows {
            if row.is_shown() {
                write!(f, "<g transform=\"translate(0,{down})\">\n{row}</g>\n")?;
                down = down.saturating_add(106);
            }
        }
        write!(f, "</svg>\n")
    }
}
