//! The options of `compare`.

use dmr_options::{Described, FLAG, NUMBER, Numbers, TEXT, Takes, WORD};

/// The files of `compare`, and what is compared of them. No recording has more frames than a shift takes.
pub(crate) static COMPARE: [Described; 5] = [
    Described {
        name: "first",
        value: "A",
        help: "A file; - is standard input",
        ..WORD
    },
    Described {
        name: "second",
        value: "B",
        help: "Another of its kind; - is standard input",
        ..WORD
    },
    Described {
        name: "shift",
        help: "Compares frame f of A with frame f+N of B",
        takes: Takes::Number(Numbers::I32(-1_048_576, 1_048_576)),
        ..NUMBER
    },
    Described {
        name: "ignore",
        value: "PART",
        help: "Leaves out a part of each burst: cach or vocoder",
        takes: Takes::OneOf(&["cach", "vocoder"]),
        ..TEXT
    },
    Described {
        name: "quiet",
        help: "Prints the counts alone",
        ..FLAG
    },
];
