//! The words of a line.
ghost use Rattle.std.specs.Prelude.{◌≡◌, ◌≢◌, ◌+◌, ◌<◌, ◌≤◌, length, drop, slice_index_or, true, false, IfOk, OnOk};
ghost use Rattle.dmr_words.specs.Words.{is_blank};
ghost use Rattle.dmr_script.specs.Quiet.{is_quiet};
ghost use Rattle.dmr_script.specs.Tokens.{token_octets};
ghost use Rattle.dmr_script.specs.declared.token.Token.TheVariants.{End};

use crate::cited::Cited;
use crate::expected::Expected;
use crate::fault::Refusal;
use crate::keyword::Keyword;

/// What stands in a line: a word, a text in quotes, or its end.
#[derive(Clone, Copy)]
pub(crate) enum Token<'a> {
    /// A word. A comma, an arrow and a colon in front of a space are words of their own.
    Word(&'a [u8]),
    /// What stands between two quotes: printable ASCII.
    Text(&'a [u8]),
    /// A text that isn't one: it doesn't end, or has other octets.
    Unreadable(&'a [u8]),
    /// The end of the line, or a remark.
    End,
}

impl<'a> Token<'a> {
    /// Why it is refused where something else has to stand.
    pub(crate) fn instead_of(self, wanted: Expected) -> Refusal {
        match self {
            Token::Word(word) | Token::Text(word) => Refusal::Unexpected {
                wanted,
                found: Cited::of(word),
            },
            Token::Unreadable(text) => Refusal::Unreadable(Cited::of(text)),
            Token::End => Refusal::LineEnds(wanted),
        }
    }
}

/// The part of a line that isn't read yet.
#[derive(Clone, Copy)]
pub(crate) struct Cursor<'a> {
    pub(crate) rest: &'a [u8],
}

/// Whether an octet stands between words.
fn is_blank(octet: u8) -> bool
    ensures value { result ≡ is_blank octet }
{
    octet == b' ' || octet == b'\t'
}

/// What stands behind the blanks in front.
fn behind_blanks(octets: &[u8]) -> &[u8]
    ensures quiet { is_quiet result.now ≡ is_quiet octets.now }
    ensures first { is_blank (slice_index_or result.now 0 0) ≡ false }
    ensures within { length result.now ≤ length octets.now }
{
    let mut rest = octets;
    while let [first, behind @ ..] = rest {
        if !is_blank(*first) {
            return rest;
        }
        rest = behind;
    }
    rest
}

/// Whether a word ends in front of these octets.
fn ends_word(octets: &[u8]) -> bool {
    match octets {
        [] | [b' ' | b'\t' | b',' | b'"' | b'#', ..] | [b'-', b'>', ..] => true,
        [b':', behind @ ..] => matches!(behind, [] | [b' ' | b'\t' | b'#', ..]),
        _ => false,
    }
}

/// How many octets the word has that these begin with.
fn word_length(octets: &[u8]) -> usize
    requires some { 0 < length octets.now }
    ensures some { 0 < result }
    ensures within { result ≤ length octets.now }
{
    match octets {
        [b'-', b'>', ..] => return 2,
        [b',', ..] => return 1,
        _ => {}
    }
    let mut count = 1;
    while count < octets.len() && !ends_word(&octets[count..]) {
        count += 1;
    }
    count
}

/// How many octets stand in front of the first quote, or in all where there is none.
fn quoted_length(octets: &[u8]) -> usize
    ensures within { result ≤ length octets.now }
{
    octets
        .iter()
        .position(|octet| *octet == b'"')
        .unwrap_or(octets.len())
}

/// Whether a text has printable ASCII alone.
fn is_printable(text: &[u8]) -> bool {
    text.iter().all(|octet| matches!(*octet, b' '..=b'~'))
}

impl<'a> Cursor<'a> {
    /// In front of a line.
    pub(crate) fn new(line: &'a [u8]) -> Cursor<'a>
        ensures line { result.rest.now ≡ line.now }
    {
        Cursor { rest: line }
    }

    /// Goes on over so many octets, and answers them.
    fn take(&mut self, count: usize) -> &'a [u8]
        requires there { count ≤ length self.old.rest.now }
        ensures length { length result.now ≡ count }
        ensures rest { self.new.rest.now ≡ drop count self.old.rest.now }
        ensures left { length self.new.rest.now + count ≡ length self.old.rest.now }
    {
        let (taken, rest) = self.rest.split_at(count);
        self.rest = rest;
        taken
    }

    /// What stands next. The rest stands behind it.
    pub(crate) fn next(&mut self) -> Token<'a>
        ensures kept { length self.new.rest.now ≤ length self.old.rest.now }
        ensures quiet { result ≡ End → is_quiet self.old.rest.now ≡ true }
        ensures words { result ≢ End → is_quiet self.old.rest.now ≡ false }
        ensures within { length (token_octets result) ≤ length self.old.rest.now }
        ensures shorter { result ≢ End → length self.new.rest.now < length self.old.rest.now }
    {
        self.rest = behind_blanks(self.rest);
        match self.rest {
            [] | [b'#', ..] => Token::End,
            [b'"', text @ ..] => {
                let length = quoted_length(text);
                if length == text.len() {
                    return Token::Unreadable(self.take(self.rest.len()));
                }
                let quoted = self.take(length + 2);
                let text = &quoted[1..length + 1];
                if is_printable(text) {
                    Token::Text(text)
                } else {
                    Token::Unreadable(text)
                }
            }
            rest => Token::Word(self.take(word_length(rest))),
        }
    }

    /// Goes on over a word, where it stands next.
    pub(crate) fn takes(&mut self, keyword: Keyword) -> bool
        ensures kept { length self.new.rest.now ≤ length self.old.rest.now }
        ensures shorter { result ≡ true → length self.new.rest.now < length self.old.rest.now }
    {
        let mut ahead = *self;
        match ahead.next() {
            Token::Word(word) if word == keyword.text().as_bytes() => {
                *self = ahead;
                true
            }
            _ => false,
        }
    }

    /// Goes on over a comma and a word, where they stand next.
    pub(crate) fn takes_further(&mut self, keyword: Keyword) -> bool
        ensures kept { length self.new.rest.now ≤ length self.old.rest.now }
    {
        let mut ahead = *self;
        if ahead.takes(Keyword::Comma) && ahead.takes(keyword) {
            *self = ahead;
            return true;
        }
        false
    }

    /// Goes on over a word, which has to stand next.
    pub(crate) fn expect(&mut self, keyword: Keyword) -> Result<(), Refusal>
        ensures kept { length self.new.rest.now ≤ length self.old.rest.now }
    {
        match self.next() {
            Token::Word(word) if word == keyword.text().as_bytes() => Ok(()),
            token => Err(token.instead_of(Expected::Word(keyword))),
        }
    }

    /// Goes on over a comma and a word, which have to stand next.
    pub(crate) fn expect_further(&mut self, keyword: Keyword) -> Result<(), Refusal>
        ensures kept { length self.new.rest.now ≤ length self.old.rest.now }
    {
        self.expect(Keyword::Comma)?;
        self.expect(keyword)
    }

    /// The word that stands next, which has to be one.
    pub(crate) fn word(&mut self, wanted: Expected) -> Result<&'a [u8], Refusal>
        ensures kept { length self.new.rest.now ≤ length self.old.rest.now }
        ensures shorter { OnOk result (length self.new.rest.now < length self.old.rest.now) }
        ensures within { IfOk result (λ word. length word.now ≤ length self.old.rest.now) }
    {
        match self.next() {
            Token::Word(word) => Ok(word),
            token => Err(token.instead_of(wanted)),
        }
    }

    /// Why the word that stands next is refused, where none of the words that may stand there does.
    pub(crate) fn unknown(&mut self, wanted: Expected) -> Refusal {
        match self.next() {
            Token::Word(word) => Refusal::UnknownWord(Cited::of(word)),
            token => token.instead_of(wanted),
        }
    }

    /// That nothing stands next but the end of the line.
    pub(crate) fn expect_end(&mut self) -> Result<(), Refusal> {
        match self.next() {
            Token::End => Ok(()),
            Token::Word(b",") => Err(self.unknown(Expected::End)),
            token => Err(token.instead_of(Expected::End)),
        }
    }

    /// Whether a shape stands next, or the end of the line.
    pub(crate) fn is_at_shape(&self) -> bool {
        let mut ahead = *self;
        matches!(ahead.next(), Token::End | Token::Word(b":"))
    }
}
