//! The options of `log`.

use crate::showing::{FROM, SLOT, TO};
use dmr_options::{COLOUR, Described, FLAG, NUMBER, Numbers, TEXT, Takes, WORD};

/// The recording of `log`, its settings, its form, and the lines that are asked for. It has one form, and a page leaves nothing
/// out.
pub(crate) static LOG: [Described; 10] = [
    Described {
        name: "uplink",
        value: "UPLINK",
        help: "The uplink recording; - is standard input",
        ..WORD
    },
    COLOUR,
    Described {
        name: "llid",
        help: "Also what a gateway of this address (LLID) receives",
        takes: Takes::Number(Numbers::U32(1, 16_777_215)),
        ..NUMBER
    },
    Described {
        name: "start",
        value: "TIME",
        help: "When it began, as 2026-01-31T12:00:00Z",
        ..TEXT
    },
    Described {
        name: "csv",
        help: "A table: a row of CSV for each",
        ..FLAG
    },
    Described {
        name: "json",
        help: "An object a line, for programs",
        conflicts: &["csv"],
        ..FLAG
    },
    Described {
        name: "html",
        help: "A page: a picture of each minute, and a table",
        conflicts: &["csv", "json", "slot", "from", "to"],
        ..FLAG
    },
    SLOT,
    FROM,
    TO,
];
