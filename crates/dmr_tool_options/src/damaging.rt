//! The options of `damage`.

use dmr_options::{COLOUR, Described, NUMBER, Numbers, Takes, WORD};

/// How many of ten thousand are damaged, which is asked for where nothing is kept within the limits of a colour code.
const RATE: Described = Described {
    takes: Takes::Number(Numbers::U16(0, 10_000)),
    conflicts: &["colour"],
    ..NUMBER
};

/// The files of `damage`, and what is damaged.
pub(crate) static DAMAGE: [Described; 6] = [
    Described {
        name: "input",
        value: "IN",
        help: "The uplink recording; - is standard input",
        ..WORD
    },
    Described {
        name: "output",
        value: "OUT",
        help: "The damaged one, to write; - is standard output",
        ..WORD
    },
    Described {
        name: "seed",
        help: "Another number, other damage",
        takes: Takes::Number(Numbers::U64),
        default: Some("0"),
        ..NUMBER
    },
    COLOUR,
    Described {
        name: "errors",
        help: "Turns each bit with N in 10000",
        ..RATE
    },
    Described {
        name: "loss",
        help: "Leaves each burst out with N in 10000",
        ..RATE
    },
];
