//! Laws of texts, as the contracts of functions that do nothing.
ghost use Rattle.std.specs.Prelude.{◌≡◌, ℕ, ◌+◌, ◌<◌, ◌≤◌, List, [], ◌∷◌, ◌++◌, length, Option, true, false};
ghost use Rattle.std.specs.List.{position_or_len};
ghost use Rattle.std.specs.Str.Lines.{strip_carriage_return};
ghost use Rattle.dmr_words.specs.Words.{is_blank, line_words};
ghost use Rattle.dmr_words.specs.Lines.{TextState, Line, TellsLines, fresh_text, IsBehindLines, numbered_line, lines_behind};
ghost use Rattle.dmr_words.specs.Lines.{line_length, line_limit, has_short_lines};

/// What was told from one state to another, and from there to a third, was told from the first to the third.
pub fn lines_follow()
    ensures told { (seen : ℕ → List ℕ → List Line) (a b c : TextState) (x y z : Option (List ℕ)) (first second : List Line)
        → TellsLines seen a b x y first → TellsLines seen b c y z second → TellsLines seen a c x z (first ++ second) }
{}

/// What was told from the front of a text to its end are all lines of what was read.
pub fn all_lines_are_told()
    ensures all { (seen : ℕ → List ℕ → List Line) (end : TextState) (x y : Option (List ℕ)) (told : List Line)
        → seen end.number [] ≡ [] → (tells : TellsLines seen fresh_text end x y told) → IsBehindLines end
        → seen 0 tells.taken ≡ told }
{}

/// A text begins with the line in front of its first line feed, and ends with a line that has none, where that isn't empty.
pub fn lines_have_ends()
    ensures fed { (number : ℕ) (line rest : List ℕ) → line_length line ≡ length line → lines_behind number (line ++ 10 ∷ rest)
        ≡ numbered_line (number + 1) (strip_carriage_return line) ∷ lines_behind (number + 1) rest }
    ensures last { (number : ℕ) (line : List ℕ) → line_length line ≡ length line → 0 < length line
        → lines_behind number line ≡ numbered_line (number + 1) line ∷ [] }
{}

/// A text in front of whose first line feed stand too many octets has a line that is too long. One that isn't doesn't matter.
pub fn long_lines_are_seen()
    ensures long { (text : List ℕ) → line_limit < line_length text → has_short_lines text ≡ false }
    ensures short { (line rest : List ℕ) → line_length line ≡ length line → length line ≤ line_limit
        → has_short_lines (line ++ 10 ∷ rest) ≡ has_short_lines rest }
    ensures last { (line : List ℕ) → line_length line ≡ length line → length line ≤ line_limit → has_short_lines line ≡ true }
{}

/// Octets that are no blanks are a word in front of a blank, and in front of the end of the line. Blanks in front don't matter.
pub fn words_have_ends()
    ensures first { (word rest : List ℕ) (blank : ℕ) → 0 < length word → position_or_len is_blank word ≡ length word
        → is_blank blank ≡ true → line_words (word ++ blank ∷ rest) ≡ word ∷ line_words rest }
    ensures last { (word : List ℕ) → 0 < length word → position_or_len is_blank word ≡ length word → line_words word ≡ word ∷ [] }
    ensures blank { (blank : ℕ) (rest : List ℕ) → is_blank blank ≡ true → line_words (blank ∷ rest) ≡ line_words rest }
{}
