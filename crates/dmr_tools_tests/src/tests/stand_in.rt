//! A system that has a few files, each by its names, and what the tools print over it.
use dmr_files::{FileKind, Identity, Open, Place, StandardFiles, System};
use dmr_record::ToWrite;
use dmr_tools::{Request, obey, request_of};
use std::fmt::Debug;
use std::io::{self, ErrorKind, Write};
use std::process::Abort;

/// Recordings of no frames, and the text of the first.
pub(crate) const RECORDING: &[u8] = b"DMRU\x01\x00\x00\x00";

const DOWNLINK: &[u8] = b"DMRD\x01\x00\x00\x00";

pub(crate) const TEXT: &[u8] = b"dmrgate uplink 1\nframes 0\n";

/// A control block in slot 1, and a datagram to send.
pub(crate) const SCRIPT: &[u8] =
    b"slot 1\nopcode 0, fid 0, 0000000000000000\nsend at 5, octets 00\n";

/// A script that is refused.
const REFUSED: &[u8] = b"slot 1\n\ngrup\n";

/// A file that keeps nothing of what is written to it, or takes nothing.
#[derive(Drop)]
pub(crate) enum Output {
    Open,
    Full,
}

impl Write for Output {
    fn write(&mut self, piece: &[u8]) -> io::Result<usize> {
        match self {
            Output::Open => Ok(piece.len()),
            Output::Full => Err(io::Error::from(ErrorKind::StorageFull)),
        }
    }

    fn flush(&mut self) -> io::Result<()> {
        Ok(())
    }
}

/// The system. A recording, a text and a script have names there by which they may be written too, and so has the file behind its
/// standard output.
#[derive(Clone, Copy)]
pub(crate) struct StandIn {
    /// What its standard input has.
    pub(crate) input: &'static [u8],
    /// Whether it says that its standard output is a terminal.
    pub(crate) is_terminal: bool,
}

/// Its standard input has a recording, and its standard output is none.
pub(crate) const PLAIN: StandIn = StandIn {
    input: RECORDING,
    is_terminal: false,
};

/// Its standard output is a terminal.
pub(crate) const AT_A_TERMINAL: StandIn = StandIn {
    is_terminal: true,
    ..PLAIN
};

/// The regular file of this number.
fn regular(number: u64) -> Identity {
    Identity {
        device: 1,
        number,
        kind: FileKind::Regular,
    }
}

impl System for StandIn {
    type Input = &'static [u8];

    type Output = Output;

    fn open_input(&self, place: Place<'_>) -> io::Result<Open<&'static [u8]>> {
        let (file, number) = match place {
            Place::Path("up") => (RECORDING, 1),
            Place::Path("down") => (DOWNLINK, 2),
            Place::Path("text") => (TEXT, 3),
            Place::Path("scene") => (SCRIPT, 4),
            Place::Path("refused") => (REFUSED, 5),
            Place::Standard => (self.input, 6),
            Place::Path(_) => return Err(io::Error::from(ErrorKind::NotFound)),
        };
        let identity = regular(number);
        Ok(Open { file, identity })
    }

    fn open_output(&self, place: Place<'_>) -> io::Result<Open<Output>> {
        let (file, number) = match place {
            Place::Path("twin") => (Output::Open, 1),
            Place::Path("text twin") => (Output::Open, 3),
            Place::Path("scene") => (Output::Open, 4),
            Place::Path("printed") | Place::Standard => (Output::Open, 7),
            Place::Path("out") => (Output::Open, 8),
            Place::Path("list") => (Output::Open, 9),
            Place::Path("full") => (Output::Full, 10),
            Place::Path(_) => return Err(io::Error::from(ErrorKind::NotFound)),
        };
        let identity = regular(number);
        Ok(Open { file, identity })
    }

    fn empty(&self, _output: &Open<Output>) -> io::Result<()> {
        Ok(())
    }

    fn standard_files(&self) -> StandardFiles {
        StandardFiles {
            input: None,
            output: Some(regular(7)),
            error: None,
        }
    }

    fn prints_to_terminal(&self) -> bool {
        self.is_terminal
    }
}

/// What these words ask for, where they aren't refused.
pub(crate) fn requested<'a>(rt: &impl AllocGlobal, words: &'a [&'a str]) -> Option<Request<'a>> {
    request_of(rt.alloc(), words).ok()
}

/// Whether these words ask for nothing that there is.
fn is_refused(rt: &impl AllocGlobal, words: &[&str]) -> bool {
    requested(rt, words).is_none()
}

/// These words ask for nothing that there is.
pub(crate) fn expect_refused(rt: &(impl Abort + AllocGlobal), words: &[&str]) {
    assert!(rt; is_refused(rt, words), "{words:?}");
}

/// That both are the same, of what is told where they aren't.
pub(crate) fn are_same<T: PartialEq + Debug>(rt: &impl Abort, what: &str, got: &T, expected: &T) {
    assert_eq!(rt; got, expected, "{what}");
}

/// A sink has taken this text.
fn has_taken(rt: &impl Abort, sink: ToWrite<Vec<u8>>, text: &str) {
    let octets = sink.into_inner();
    assert!(rt; octets.as_slice() == text.as_bytes(), "{text}");
}

/// These words end with this status, and print so to either sink.
pub(crate) fn expect_printed(
    rt: &(impl Abort + AllocGlobal),
    system: &StandIn,
    words: &[&str],
    status: u8,
    out: &str,
    err: &str,
) {
    let alloc = rt.alloc();
    let mut output = ToWrite::new(Vec::new(alloc));
    let mut errors = ToWrite::new(Vec::new(alloc));
    let ended = obey(alloc, words, system, &mut output, &mut errors);
    are_same(rt, "status", &ended, &status);
    has_taken(rt, output, out);
    has_taken(rt, errors, err);
}
