//! A system that has four files, each by its own name, and tells nothing of what is written.
use dmr_files::{FileKind, Identity, Open, Place, StandardFiles, System};
use std::io::{self, ErrorKind, Sink};

/// A control signalling block in slot 1 of one frame.
const UPLINK: &[u8] = b"DMRU\x01\x00\x00\x00\
    \x01\x00\x62\x00\x82\x01\x90\x01\x00\x04\x20\x04\xE0\x04\xCD\x5D\x7F\x77\xFD\x75\x7A\xC8\x18\x00\x28\x02\
    \x50\x02\x80\x00\xC0\x12\x00\x22\
    \x00";

/// No datagrams.
const OUTGOING: &[u8] = b"DMRO\x01\x00\x00\x00";

/// The system. Its uplink is file 1 of device 1, its outgoing list file 2, and its received file 4. Its standard output is a pipe.
#[derive(Drop)]
pub struct StandIn {
    /// The device and the number of its downlink.
    pub downlink: (u64, u64),
    /// Whether it says that its standard output is a terminal.
    pub is_terminal: bool,
}

/// The pipe behind its standard output.
const PIPE: Identity = Identity {
    device: 2,
    number: 9,
    kind: FileKind::Other,
};

/// A regular file, and which it is.
fn opened<F>(file: F, device: u64, number: u64) -> Open<F> {
    let identity = Identity {
        device,
        number,
        kind: FileKind::Regular,
    };
    Open { file, identity }
}

impl System for StandIn {
    type Input = &'static [u8];

    type Output = Sink;

    fn open_input(&self, place: Place<'_>) -> io::Result<Open<&'static [u8]>> {
        match place {
            Place::Path("up") => Ok(opened(UPLINK, 1, 1)),
            Place::Path("out") => Ok(opened(OUTGOING, 1, 2)),
            _ => Err(io::Error::from(ErrorKind::NotFound)),
        }
    }

    fn open_output(&self, place: Place<'_>) -> io::Result<Open<Sink>> {
        match place {
            Place::Path("down") => Ok(opened(io::sink(), self.downlink.0, self.downlink.1)),
            Place::Path("in") => Ok(opened(io::sink(), 1, 4)),
            Place::Standard => Ok(Open {
                file: io::sink(),
                identity: PIPE,
            }),
            _ => Err(io::Error::from(ErrorKind::NotFound)),
        }
    }

    fn empty(&self, _output: &Open<Sink>) -> io::Result<()> {
        Ok(())
    }

    fn standard_files(&self) -> StandardFiles {
        StandardFiles {
            input: None,
            output: None,
            error: None,
        }
    }

    fn prints_to_terminal(&self) -> bool {
        self.is_terminal
    }
}
