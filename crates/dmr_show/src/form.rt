//! How a file is shown.
ghost use Rattle.std.specs.Prelude.{◌≡◌};
ghost use Rattle.dmr_show.specs.Forms.{notation_of};

/// How a file is shown.
#[derive(Clone, Copy, Debug, Drop, PartialEq, Eq)]
pub enum Form {
    /// A line for each burst or record.
    Listing,
    /// A letter for each slot of each frame, 50 frames a line, slot under slot. A recording alone has a strip.
    Strip,
    /// An object for the file, one for each burst or record and a last one, as JSON, each in a line.
    Json,
}

/// What a line is written in.
#[derive(Clone, Copy, Drop)]
pub(crate) enum Notation {
    /// Columns for people.
    Text,
    /// JSON, for programs.
    Json,
}

impl Form {
    /// What its lines are written in.
    pub(crate) fn notation(self) -> Notation
        ensures value { result ≡ notation_of self }
    {
        match self {
            Form::Listing | Form::Strip => Notation::Text,
            Form::Json => Notation::Json,
        }
    }
}
