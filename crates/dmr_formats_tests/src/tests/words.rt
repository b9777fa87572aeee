//! Texts whose lines, words and numbers are known, whole and in pieces, and devices that fail.
ghost use Rattle.std.specs.Prelude.{None, false};

use dmr_record::{DeviceFault, Source};
use dmr_test_devices::{FailsAt, OneByOne};
use dmr_words::*;

/// A source that gives at most so many octets a call, and counts the calls.
#[derive(Drop)]
struct Pieces<'a> {
    octets: &'a [u8],
    size: usize,
    calls: u32,
}

impl<'a> Pieces<'a> {
    fn new(octets: &'a [u8], size: usize) -> Pieces<'a> {
        Pieces {
            octets,
            size,
            calls: 0,
        }
    }
}

impl Source for Pieces<'_> {
    ghost left = { λ source. None };

    ghost has_failed = { λ source. false };

    fn read(&mut self, buffer: &mut [u8]) -> Result<usize, DeviceFault> {
        self.calls = self.calls.saturating_add(1);
        let count = self.octets.len().min(buffer.len()).min(self.size);
        let (front, rest) = self.octets.split_at(count);
        buffer[..count].copy_from_slice(front);
        self.octets = rest;
        Ok(count)
    }
}

/// Texts with their lines, and the number of the line behind the last.
const TEXTS: [(&[u8], &[&[u8]], u64); 7] = [
    (b"", &[], 1),
    (b"a\n", &[b"a"], 2),
    (b"a\nbc", &[b"a", b"bc"], 3),
    (b"\n\n", &[b"", b""], 3),
    (b"\r\n", &[b""], 2),
    (b"\r", &[b"\r"], 2),
    (b"a\r\nb\r\r\n\r\nc\r", &[b"a", b"b\r", b"", b"c\r"], 5),
];

const SIZES: [usize; 4] = [1, 2, 3, 8192];

/// Whether these are the lines of a text that comes in pieces of this size.
fn has_lines(text: &[u8], size: usize, want: &[&[u8]], behind: u64) -> bool {
    let mut lines = Lines::new();
    let mut source = Pieces::new(text, size);
    for line in want {
        let number = lines.next_number();
        let is_right = lines.next_line(&mut source) == Ok(true)
            && lines.line() == *line
            && lines.number() == number;
        if !is_right {
            return false;
        }
    }
    lines.next_line(&mut source) == Ok(false)
        && lines.next_line(&mut source) == Ok(false)
        && lines.next_number() == behind
}

#[test]
fn lines_of_texts(rt: HostRuntime) {
    for (text, want, behind) in TEXTS {
        for size in SIZES {
            assert!(rt; has_lines(text, size, want, behind), "of {text:?}");
        }
    }
}

/// Whether the lines with words of a text are told when it comes in pieces of this size, each with its number.
fn has_worded_lines(size: usize) -> bool {
    let mut lines = Lines::new();
    let mut source = Pieces::new(b"# a\n\n \t\r\na b\n #c\n#", size);
    for (number, line) in [(4, b"a b"), (5, b" #c")] {
        let is_right = lines.next_worded(&mut source) == Ok(true)
            && lines.line() == line.as_slice()
            && lines.number() == number;
        if !is_right {
            return false;
        }
    }
    lines.next_worded(&mut source) == Ok(false) && lines.next_number() == 7
}

#[test]
fn lines_that_count(rt: HostRuntime) {
    for size in SIZES {
        assert!(rt; has_worded_lines(size));
    }
}

// A line that has come whole is told before anything further is read, and behind the end nothing is.
#[test]
fn reads_of_a_pipe(rt: HostRuntime) {
    let mut lines = Lines::new();
    let mut source = Pieces::new(b"a\nb\nc", 8192);
    for calls in [1, 1, 2, 2, 2] {
        assert!(rt; lines.next_line(&mut source).is_ok());
        assert!(rt; source.calls == calls);
    }
}

/// A source of so many letters and what is behind them.
#[derive(Drop)]
struct Letters<'a> {
    count: usize,
    end: Pieces<'a>,
}

impl Source for Letters<'_> {
    ghost left = { λ source. None };

    ghost has_failed = { λ source. false };

    fn read(&mut self, buffer: &mut [u8]) -> Result<usize, DeviceFault> {
        if self.count == 0 {
            return self.end.read(buffer);
        }
        let count = self.count.min(buffer.len());
        buffer[..count].fill(b'a');
        self.count -= count;
        Ok(count)
    }
}

/// What is answered of so many letters and what is behind them, and how many octets the line has then.
fn long_line(count: usize, end: &[u8]) -> (Result<bool, LineFault>, usize) {
    let mut lines = Lines::new();
    let mut source = Letters {
        count,
        end: Pieces::new(end, 8192),
    };
    let answer = lines.next_line(&mut source);
    (answer, lines.line().len())
}

#[test]
fn limits(rt: HostRuntime) {
    assert!(rt; LINE_LIMIT == 131_200);
    for end in [b"\n".as_slice(), b""] {
        assert!(rt; long_line(131_200, end) == (Ok(true), 131_200));
        assert!(rt; long_line(131_201, end).0 == Err(LineFault::TooLong));
    }
    assert!(rt; long_line(131_199, b"\r\n") == (Ok(true), 131_199));
    assert!(rt; long_line(131_200, b"\r\n").0 == Err(LineFault::TooLong));
}

#[test]
fn failing_devices(rt: HostRuntime) {
    for (calls, line) in [(0, b"".as_slice()), (1, b"a"), (2, b"ab")] {
        let mut lines = Lines::new();
        let mut source = FailsAt::new(OneByOne::new(b"ab\n"), calls);
        assert!(rt; lines.next_line(&mut source) == Err(LineFault::Read));
        assert!(rt; lines.line() == line && lines.next_number() == 1);
    }
}

/// Lines with their words.
const WORDS: [(&[u8], &[&[u8]]); 6] = [
    (b"", &[]),
    (b" \t", &[]),
    (b"a", &[b"a"]),
    (b"\ta  bc\t\td ", &[b"a", b"bc", b"d"]),
    (b"#", &[b"#"]),
    (b"a\x0bb\r \0", &[b"a\x0bb\r", b"\0"]),
];

/// Whether these are the words of a line.
fn has_words(line: &[u8], want: &[&[u8]]) -> bool {
    let mut words = Words::new(line);
    for word in want {
        if words.next() != Some(*word) {
            return false;
        }
    }
    words.next().is_none()
}

#[test]
fn words_of_lines(rt: HostRuntime) {
    for (line, want) in WORDS {
        assert!(rt; has_words(line, want), "of {line:?}");
    }
}

#[test]
fn counted_words(rt: HostRuntime) {
    for (line, want) in WORDS {
        let is_right = Words::new(line).count() == want.len()
            && is_worded(line) == (!want.is_empty() && line != b"#".as_slice());
        assert!(rt; is_right, "of {line:?}");
    }
}

#[test]
fn numbers_as_words(rt: HostRuntime) {
    for (word, want) in [
        (b"0".as_slice(), Some(0)),
        (b"7", Some(7)),
        (b"1048576", Some(1_048_576)),
        (b"4294967295", Some(4_294_967_295)),
        (b"4294967296", None),
        (b"99999999999999999999", None),
        (b"", None),
        (b"00", None),
        (b"07", None),
        (b"+7", None),
        (b"-0", None),
        (b"7a", None),
        (b"0x7", None),
        (b"\xff", None),
        (b"\xd9\xa3", None),
    ] {
        assert!(rt; decimal(word) == want, "of {word:?}");
    }
}
