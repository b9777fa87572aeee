//! Lines of text, printed into memory.
ghost use Rattle.std.specs.Prelude.{◌≡◌, ◌≤◌, IfSome, List, ℕ, length, take};
ghost use Rattle.dmr_lines.specs.Line.{IsOneLine, line_octets};

use std::fmt;
use std::fmt::{Display, Write};

/// A text that is printed to the front of a place in memory, as far as that goes.
#[derive(Drop)]
struct Front<'a> {
    octets: &'a mut [u8],
    length: usize,
}

impl fmt::Write for Front<'_> {
    fn write_str(&mut self, text: &str) -> fmt::Result {
        let octets = text.as_bytes();
        match self.length.checked_add(octets.len()) {
            Some(end) if end <= self.octets.len() => {
                self.octets[self.length..end].copy_from_slice(octets);
                self.length = end;
                Ok(())
            }
            _ => Err(fmt::Error),
        }
    }
}

/// Prints a value to the front of the octets, and answers how many it takes.
fn print<T: Display>(octets: &mut [u8], value: &T) -> Option<usize>
    ensures length { length octets.new ≡ length octets.old }
{
    let mut front = Front { octets, length: 0 };
    match write!(front, "{value}") {
        Ok(()) => Some(front.length),
        Err(_) => None,
    }
}

/// Where the first line ends of a text of so many octets.
fn line_end(octets: &[u8], printed: usize) -> usize
    requires printed { printed ≤ length octets.now }
    ensures line { IsOneLine (take result octets.now) }
    ensures within { result ≤ printed }
{
    octets[..printed]
        .iter()
        .position(|octet| *octet == b'\n')
        .unwrap_or(printed)
}

/// Prints a value as a line to the front of the octets, where there is room for it, and answers how many they are with the end of
/// the line.
pub(crate) fn print_line<T: Display>(octets: &mut [u8], value: &T) -> Option<usize>
    ensures length { length octets.new ≡ length octets.old }
    ensures within { IfSome result (λ count. count ≤ length octets.new) }
    ensures line { IfSome result (λ count. (text : List ℕ) × IsOneLine text × (take count octets.new ≡ line_octets text)) }
{
    let printed = print(octets, value)?;
    if printed > octets.len() {
        return None;
    }
    let end = line_end(octets, printed);
    if end == octets.len() {
        return None;
    }
    octets[end] = b'\n';
    Some(end + 1)
}
