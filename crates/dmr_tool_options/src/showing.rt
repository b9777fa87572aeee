//! The options of `show`.

use dmr_options::{Described, FLAG, FRAME, NUMBER, Numbers, Takes, WORD};

/// The slot that has lines.
pub(crate) const SLOT: Described = Described {
    name: "slot",
    help: "The slot alone, 1 or 2",
    takes: Takes::Number(Numbers::U8(1, 2)),
    ..NUMBER
};

/// The first frame that has lines.
pub(crate) const FROM: Described = Described {
    name: "from",
    help: "The first frame that has lines",
    ..FRAME
};

/// The last frame that has lines.
pub(crate) const TO: Described = Described {
    name: "to",
    help: "The last frame that has lines",
    ..FRAME
};

/// The file of `show`, its form, and the lines that are asked for. A strip can't be in JSON.
pub(crate) static SHOW: [Described; 6] = [
    Described {
        name: "file",
        value: "FILE",
        help: "The file to list; - is standard input",
        ..WORD
    },
    Described {
        name: "strip",
        help: "A picture: a letter a slot, 50 frames a line",
        ..FLAG
    },
    Described {
        name: "json",
        help: "An object a line, for programs",
        conflicts: &["strip"],
        ..FLAG
    },
    SLOT,
    FROM,
    TO,
];
