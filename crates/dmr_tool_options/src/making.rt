//! The options of `make`.

use dmr_options::{Described, FILE, WORD};

/// The script of `make`, and the files that are made of it.
pub(crate) static MAKE: [Described; 3] = [
    Described {
        name: "script",
        value: "SCRIPT",
        help: "The script, to read; - is standard input",
        ..WORD
    },
    Described {
        name: "uplink",
        value: "UPLINK",
        help: "The uplink recording, to write; - is standard output",
        ..WORD
    },
    Described {
        name: "outgoing",
        help: "The datagrams that the script sends, to write",
        ..FILE
    },
];
