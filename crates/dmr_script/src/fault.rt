//! Why a script is refused.
use crate::cited::Cited;
use crate::expected::Expected;
use crate::shape::Place;
use std::fmt;
use thiserror::Error;

/// Why a line of a script is refused. What hangs on when a slot is free, or on the packet that was sent last in it, is told by
/// whoever makes transmissions of the statements. This project's own.
#[derive(Clone, Copy, Debug, Drop, PartialEq, Eq, Error)]
pub enum Refusal {
    /// No statement begins with the word, or nothing that may stand there.
    #[error("unknown word '{0}'")]
    UnknownWord(Cited),
    /// Something else has to stand there.
    #[error("expected {wanted}, found '{found}'")]
    Unexpected {
        /// What has to stand there.
        wanted: Expected,
        /// What stands there.
        found: Cited,
    },
    /// The line ends too early.
    #[error("expected {0}, found the end of the line")]
    LineEnds(Expected),
    /// A text in quotes doesn't end, or has other octets than printable ASCII.
    #[error("can't read '{0}'")]
    Unreadable(Cited),
    /// Only `colour` and `frames` may stand in front of the first slot.
    #[error("a slot has to be named first")]
    NoSlot,
    /// The own colour code is told once a slot was named.
    #[error("the colour code stands in front of the first slot")]
    ColourBehindSlot,
    /// A foreign transmission has the own colour code.
    #[error("colour code {0} is the own one")]
    OwnColour(u8),
    /// A call has no shape, or an empty one.
    #[error("a call has a shape, as in H ABCDEF T")]
    NoCallShape,
    /// The letters of a call's shape aren't in this order.
    #[error("a call is headers, places and terminators, as in H ABCDEF T")]
    CallShape,
    /// The letters of a packet's shape aren't in this order, or its preambles can't count what follows.
    #[error("a packet is CSBKs, a header and blocks, as in ccDbb")]
    PacketShape,
    /// A control block has a shape.
    #[error("a control block has no shape")]
    ControlShape,
    /// A word of a shape isn't letters, nor some letters so many times.
    #[error("'{0}' is no shape")]
    NoShape(Cited),
    /// Places of a call don't follow one another.
    #[error("letter {number} of the voice is {wanted} or '.', and not {found}")]
    VoiceLetter {
        /// Which letter of the voice it is, from 1.
        number: u32,
        /// The letter that may stand there.
        wanted: Place,
        /// The letter that stands there.
        found: Place,
    },
    /// A shape has another number of blocks than the packet.
    #[error("{shape} blocks in the shape, {packet} in the packet")]
    BlockCount {
        /// How many the shape has.
        shape: u32,
        /// How many the packet has.
        packet: u32,
    },
    /// A packet is too long.
    #[error("a packet of more than 127 blocks")]
    LongPacket,
    /// Short data is too long.
    #[error("short data of more than 63 blocks")]
    LongShortData,
    /// There is no confirmed packet in front of a further try. Told by what makes transmissions.
    #[error("no confirmed packet in this slot to try again")]
    NothingToTryAgain,
    /// A block has a serial number that the packet hasn't.
    #[error("a block past the packet")]
    BlockPastPacket,
    /// Too many silences stand behind the headers of a call.
    #[error("more than five silences between header and voice")]
    LongGap,
    /// Too much stands in front of the first A of a late call.
    #[error("more than five slots in front of the first A")]
    LongTail,
    /// Six places of a call in a row are absent.
    #[error("six absent places in a row")]
    LongAbsence,
    /// A late call can't be told from a voice sync by itself.
    #[error("none of the five places behind the first A is there")]
    LoneA,
    /// A terminator stands within a superframe.
    #[error("a terminator stands in the place of an A")]
    MisplacedTerminator,
    /// A call ends with a place that isn't there.
    #[error("the last place is absent")]
    LastPlaceAbsent,
    /// What has another colour code begins or ends with a silence.
    #[error("of another colour code it begins and ends with a burst")]
    ForeignEnds,
    /// A voice sync of another colour code can't be told from one of the own.
    #[error("behind a voice sync of another colour code an EMB stands within five slots")]
    ForeignSync,
    /// Too few silences stand between two transmissions. Told by what makes transmissions.
    #[error("{found} silences where {needed} are needed behind line {behind}")]
    FewSilences {
        /// How many there are.
        found: u32,
        /// How many there have to be.
        needed: u32,
        /// The line of the transmission in front.
        behind: u64,
    },
    /// The slot has come further than that. Told by what makes transmissions.
    #[error("frame {frame} has passed: the slot stands at {at}")]
    FramePassed {
        /// The frame that is named.
        frame: u32,
        /// Where the slot stands.
        at: u32,
    },
    /// A recording has no more frames, and so no shape more letters.
    #[error("too long: more than 1048576 frames")]
    TooLong,
    /// A second line tells the number of frames.
    #[error("the number of frames stands once")]
    FramesTwice,
    /// More is sent than fits. Told by what makes transmissions.
    #[error("{frames} frames are too few: {sent} are sent")]
    FewFrames {
        /// How many are told.
        frames: u32,
        /// How many are sent.
        sent: u32,
    },
    /// No outgoing list is made. Told by what makes transmissions.
    #[error("a datagram to send: name a list for it with --outgoing")]
    NoList,
    /// More datagrams are to be sent than an outgoing list has records. Told by what makes transmissions.
    #[error("too long: more than 1048576 datagrams to send")]
    LongList,
    /// A line is too long.
    #[error("too long: more than 65536 octets")]
    LongLine,
    /// A text has too many lines.
    #[error("too many lines")]
    TooManyLines,
    /// The source failed.
    #[error("read failed")]
    Read,
}

/// A refusal, and the line that shows it.
#[derive(Clone, Copy, Debug, Drop, PartialEq, Eq)]
pub struct RefusedLine {
    /// The number of the line, from 1.
    pub line: u64,
    /// Why it is refused.
    pub refusal: Refusal,
}

impl fmt::Display for RefusedLine {
    /// `line 4: unknown word 'grup'`
    fn fmt<W: fmt::Write>(&self, f: &mut fmt::Formatter<W>) -> fmt::Result {
        let RefusedLine { line, refusal } = *self;
        write!(f, "line {line}: {refusal}")
    }
}
