//! Where files are.
ghost use Rattle.std.specs.Prelude.{◌≡◌};
ghost use Rattle.dmr_files.specs.Place.{IsNamed, is_standard, name_of};

/// Where a file is.
#[derive(Clone, Copy)]
pub enum Place<'a> {
    /// Standard input for what is read, standard output for what is written.
    Standard,
    /// At a path.
    Path(&'a str),
}

impl<'a> Place<'a> {
    /// The place of this name: a hyphen names the standard stream, and anything else is a path.
    pub fn named(name: &'a str) -> Place<'a>
        ensures named { IsNamed name.now result }
    {
        match name {
            "-" => Place::Standard,
            path => Place::Path(path),
        }
    }

    /// Whether it is a standard stream.
    pub fn is_standard(&self) -> bool
        ensures standard { result ≡ is_standard self.now }
    {
        match self {
            Place::Standard => true,
            Place::Path(_) => false,
        }
    }

    /// Its name: a hyphen of a standard stream, and else its path.
    pub fn name(&self) -> &'a str
        ensures name { result.now ≡ name_of self.now }
    {
        match *self {
            Place::Standard => "-",
            Place::Path(path) => path,
        }
    }
}
