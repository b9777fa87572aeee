//! The options of `import dmrd` and `export dmrd`.

use crate::carrying::START;
use dmr_options::{Described, FLAG, NUMBER, Numbers, Takes, WORD};

/// What both ports have in common.
const PORT: Described = Described {
    value: "PORT",
    takes: Takes::Number(Numbers::U16(0, u16::MAX)),
    ..NUMBER
};

/// What both numbers of a repeater have in common.
const REPEATER: Described = Described {
    name: "repeater",
    takes: Takes::Number(Numbers::U32(0, u32::MAX)),
    ..NUMBER
};

/// The files of `import dmrd`, and which packets are taken.
pub(crate) const IMPORT_DMRD: [Described; 6] = [
    Described {
        name: "input",
        value: "CAPTURE",
        help: "The capture, pcap or pcapng; - is standard input",
        ..WORD
    },
    Described {
        name: "output",
        value: "OUT",
        help: "The uplink recording to make of it; - is standard output",
        ..WORD
    },
    Described {
        name: "port",
        help: "The packets go to this port of UDP",
        default: Some("62031"),
        ..PORT
    },
    Described {
        name: "from-port",
        help: "They come from this port instead",
        conflicts: &["port"],
        ..PORT
    },
    Described {
        help: "Those of this repeater; else those of the first one",
        ..REPEATER
    },
    Described {
        name: "as-uplink",
        help: "Makes the syncs of a base station those of mobiles",
        ..FLAG
    },
];

/// The files of `export dmrd`, and what the packets say.
pub(crate) const EXPORT_DMRD: [Described; 4] = [
    Described {
        name: "input",
        value: "DOWNLINK",
        help: "The downlink recording; - is standard input",
        ..WORD
    },
    Described {
        name: "output",
        value: "OUT",
        help: "The capture, to write; - is standard output",
        ..WORD
    },
    Described {
        help: "The number of the repeater in them",
        default: Some("1"),
        ..REPEATER
    },
    START,
];
