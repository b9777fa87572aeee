//! The lines of a text, one after the other.
ghost use Rattle.std.specs.Prelude.{◌≡◌, ◌≢◌, ◌+◌, ◌<◌, ◌≤◌, ◌↔◌, [], ◌∷◌, ◌++◌, length, false, true, IsTrue, IfOk, IfErr, OnOk};
ghost use Rattle.std.specs.Prelude.{OnErr};
ghost use Rattle.std.specs.Io.KnownBytes.{IsAtEnd};
ghost use Rattle.std.specs.List.{before_first, after_first};
ghost use Rattle.std.specs.Str.Lines.{strip_carriage_return};
ghost use Rattle.dmr_words.specs.Faults.{is_source_fault};
ghost use Rattle.dmr_words.specs.Lines.{is_line_feed, line_limit, line_length, HasLineFeed, IsUnended, Gathers};

use crate::chunk::Chunk;
use crate::fault::LineFault;
use crate::words::is_worded;
use arrayvec::ArrayVec;
use dmr_record::Source;
use memchr::memchr;
use std::marker::Model;

/// How many octets a line has at most, in front of its line feed. This project's own.
pub const LINE_LIMIT: usize = 131_200;

/// The greatest number of a line.
const LAST_NUMBER: u64 = u64::MAX - 1;

/// Reads the lines of a text, one after the other. It is for one source, which is handed in at each call. It stands where it is
/// made, some 140 KB.
///
/// A line ends with a line feed, and a carriage return in front of that is no part of it. The last line of a text may lack its line
/// feed; a carriage return at its end is part of it then. Behind a line feed at the end of a text stands no further line.
#[derive(Drop)]
pub struct Lines {
    chunk: Chunk,
    line: ArrayVec<u8, LINE_LIMIT>,
    number: u64,
    is_over: bool,
}

// Clauses see what it remembers of its text.
impl Model for Lines {
    ghost use Rattle.std.specs.Prelude.{◌≡◌, ◌≤◌, [], true};
    ghost use Rattle.dmr_words.specs.Lines.{TextState, last_number};

    ghost Value = { TextState };

    ghost view = { λ l. record { pending = l.chunk; line = l.line.items; number = l.number; is_over = l.is_over } };

    ghost invariant = { λ l. (l.is_over ≡ true → l.chunk ≡ []) × (l.number ≤ last_number) };
}

/// How many octets stand in front of the first line feed, or in all where there is none.
fn line_length(octets: &[u8]) -> usize
    ensures value { result ≡ line_length octets.now }
{
    memchr(b'\n', octets).unwrap_or(octets.len())
}

/// Moves octets from the chunk to the line, as far as the next line feed, which is used up too, and answers whether there was one.
/// At an `Err` nothing is moved.
fn take_piece(chunk: &mut Chunk, line: &mut ArrayVec<u8, LINE_LIMIT>) -> Result<bool, LineFault>
    ensures line { OnOk result (line.new.items ≡ line.old.items ++ before_first is_line_feed chunk.old) }
    ensures rest { OnOk result (chunk.new ≡ after_first is_line_feed chunk.old) }
    ensures found { IfOk result (λ found. IsTrue found ↔ HasLineFeed chunk.old) }
    ensures short { OnOk result (length line.old.items + line_length chunk.old ≤ line_limit) }
    ensures fault { IfErr result (λ e. e ≡ LineFault.TooLong) }
    ensures long { OnErr result (line_limit < length line.old.items + line_length chunk.old) }
    ensures kept { OnErr result ((chunk.new ≡ chunk.old) × (line.new ≡ line.old)) }
{
    let octets = chunk.octets();
    let length = line_length(octets);
    let has_line_feed = length < octets.len();
    if line.try_extend_from_slice(&octets[..length]).is_err() {
        return Err(LineFault::TooLong);
    }
    chunk.skip(length + usize::from(has_line_feed));
    Ok(has_line_feed)
}

/// Moves octets to the line, first from the chunk and then as they come, as far as a line feed or the end of the text, and answers
/// whether a line feed ended it. At an `Err` what has come stands in the line and behind it in the chunk.
fn gather<S: Source>(
    chunk: &mut Chunk,
    line: &mut ArrayVec<u8, LINE_LIMIT>,
    source: &mut S,
) -> Result<bool, LineFault>
    requires well { S.has_failed source.old ≡ false }
    requires none { line.old.items ≡ [] }
    ensures ended { IfOk result (λ ended. ended ≡ true →
        Gathers (S.left source.old) (S.left source.new) chunk.old (line.new.items ++ 10 ∷ chunk.new)) }
    ensures last { IfOk result (λ ended. ended ≡ false → Gathers (S.left source.old) (S.left source.new) chunk.old line.new.items) }
    ensures end { IfOk result (λ ended. ended ≡ false → (chunk.new ≡ []) × IsAtEnd (S.left source.new)) }
    ensures unended { IsUnended line.new.items }
    ensures live { HasLineFeed chunk.old → source.new ≡ source.old }
    ensures well { OnOk result (S.has_failed source.new ≡ false) }
    ensures failed { IfErr result (λ e. S.has_failed source.new ≡ is_source_fault e) }
    ensures undone { OnErr result (Gathers (S.left source.old) (S.left source.new) chunk.old (line.new.items ++ chunk.new)) }
    ensures few { IfErr result (λ e. e ≢ LineFault.TooMany) }
    ensures long { IfErr result (λ e. e ≡ LineFault.TooLong → line_limit < line_length (line.new.items ++ chunk.new)) }
    ensures cut { IfErr result (λ e. e ≡ LineFault.Read → chunk.new ≡ []) }
{
    while !take_piece(chunk, line)? {
        if chunk.refill(source).is_err() {
            return Err(LineFault::Read);
        }
        if chunk.octets().is_empty() {
            return Ok(false);
        }
    }
    Ok(true)
}

/// Drops the carriage return at the end of a line, where there is one.
fn drop_carriage_return(line: &mut ArrayVec<u8, LINE_LIMIT>)
    ensures line { line.new.items ≡ strip_carriage_return line.old.items }
{
    if let [.., b'\r'] = line.as_slice() {
        line.pop();
    }
}

impl Lines {
    ghost use Rattle.dmr_words.specs.Lines.{TextState, fresh_text, TellsLines, lines_behind, worded_behind, told_now, untold};
    ghost use Rattle.dmr_words.specs.Lines.{IsBehindLines, last_number};
    ghost use Rattle.dmr_words.specs.Words.{is_worded};

    /// In front of a text.
    pub fn new() -> Lines
        ensures fresh { result ≡ fresh_text }
    {
        Lines {
            chunk: Chunk::new(),
            line: ArrayVec::new(),
            number: 0,
            is_over: false,
        }
    }

    /// Reads the next line, and answers whether there was one.
    ///
    /// An `Err` comes in the line behind the last that was told. `LineFault::TooLong` comes as soon as so many octets of the line
    /// have come. What has come of the line stands in `line` and behind it. Whoever goes on then reads the rest as a line.
    pub fn next_line<S: Source>(&mut self, source: &mut S) -> Result<bool, LineFault>
        requires well { S.has_failed source.old ≡ false }
        requires over { self.old.is_over ≡ true → IsAtEnd (S.left source.old) }
        ensures told { IfOk result (λ found. TellsLines lines_behind self.old self.new (S.left source.old) (S.left source.new)
            (told_now found self.new)) }
        ensures end { IfOk result (λ found. found ≡ false → IsBehindLines self.new) }
        ensures live { HasLineFeed self.old.pending → source.new ≡ source.old }
        ensures over { self.new.is_over ≡ true → IsAtEnd (S.left source.new) }
        ensures well { OnOk result (S.has_failed source.new ≡ false) }
        ensures failed { IfErr result (λ e. S.has_failed source.new ≡ is_source_fault e) }
        ensures undone { OnErr result (TellsLines lines_behind self.old (untold self.new) (S.left source.old) (S.left source.new)
            []) }
        ensures number { IfOk result (λ found. found ≡ true → self.new.number ≡ self.old.number + 1) }
        ensures same { OnErr result (self.new.number ≡ self.old.number) }
        ensures numbers { self.new.number ≤ last_number }
        ensures many { IfErr result (λ e. e ≡ LineFault.TooMany → self.new.number ≡ last_number) }
        ensures long { IfErr result (λ e. e ≡ LineFault.TooLong → line_limit < line_length (untold self.new).pending) }
        ensures cut { IfErr result (λ e. e ≡ LineFault.Read → IsUnended (untold self.new).pending) }
    {
        self.line.clear();
        if self.is_over {
            return Ok(false);
        }
        if self.number == LAST_NUMBER {
            return Err(LineFault::TooMany);
        }
        if gather(&mut self.chunk, &mut self.line, source)? {
            drop_carriage_return(&mut self.line);
            self.number += 1;
            return Ok(true);
        }
        self.is_over = true;
        if self.line.is_empty() {
            return Ok(false);
        }
        self.number += 1;
        Ok(true)
    }

    /// Reads on to the next line that counts, by `is_worded`, and answers whether there was one. An `Err` comes as in `next_line`.
    pub fn next_worded<S: Source>(&mut self, source: &mut S) -> Result<bool, LineFault>
        requires well { S.has_failed source.old ≡ false }
        requires over { self.old.is_over ≡ true → IsAtEnd (S.left source.old) }
        ensures told { IfOk result (λ found. TellsLines worded_behind self.old self.new (S.left source.old) (S.left source.new)
            (told_now found self.new)) }
        ensures worded { IfOk result (λ found. found ≡ true → is_worded self.new.line ≡ true) }
        ensures end { IfOk result (λ found. found ≡ false → IsBehindLines self.new) }
        ensures over { self.new.is_over ≡ true → IsAtEnd (S.left source.new) }
        ensures well { OnOk result (S.has_failed source.new ≡ false) }
        ensures failed { IfErr result (λ e. S.has_failed source.new ≡ is_source_fault e) }
        ensures undone { OnErr result (TellsLines worded_behind self.old (untold self.new) (S.left source.old) (S.left source.new)
            []) }
        ensures number { IfOk result (λ found. found ≡ true → self.old.number < self.new.number) }
        ensures numbers { self.new.number ≤ last_number }
        ensures many { IfErr result (λ e. e ≡ LineFault.TooMany → self.new.number ≡ last_number) }
        ensures long { IfErr result (λ e. e ≡ LineFault.TooLong → line_limit < line_length (untold self.new).pending) }
        ensures cut { IfErr result (λ e. e ≡ LineFault.Read → IsUnended (untold self.new).pending) }
    {
        while self.next_line(source)? {
            if is_worded(self.line()) {
                return Ok(true);
            }
        }
        Ok(false)
    }

    /// The line that was told last, without what ends it.
    pub fn line(&self) -> &[u8]
        ensures value { result.now ≡ self.now.line }
    {
        self.line.as_slice()
    }

    /// The number of the line that was told last, from 1: 0 in front of the first.
    pub fn number(&self) -> u64
        ensures value { result ≡ self.now.number }
    {
        self.number
    }

    /// The number of the line behind the one that was told last, in which an `Err` comes, and the end of the text is told.
    pub fn next_number(&self) -> u64
        ensures value { result ≡ self.now.number + 1 }
    {
        self.number + 1
    }
}
