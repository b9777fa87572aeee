//! Which file a file is, whatever its name.
ghost use Rattle.std.specs.Prelude.{◌≡◌};
ghost use Rattle.dmr_files.specs.Identity.{clashes, is_behind, is_behind_any, is_live, is_one_file};

use crate::system::StandardFiles;

/// What a file is, as far as it matters whether two may write to it.
#[derive(Clone, Copy, Debug, Drop, PartialEq, Eq)]
pub enum FileKind {
    /// A regular file, which holds what is written to it.
    Regular,
    /// A character device, such as `/dev/null` or a terminal.
    Device,
    /// A pipe, a socket, or whatever else there is.
    Other,
}

/// Which file a file is: two of its names, or a name and an open file, have the same device and number.
#[derive(Clone, Copy, Debug, Drop, PartialEq, Eq)]
pub struct Identity {
    pub device: u64,
    pub number: u64,
    pub kind: FileKind,
}

impl Identity {
    /// Whether both are one file.
    pub(crate) fn is_one_file(&self, other: &Identity) -> bool
        ensures one { result ≡ is_one_file self.now other.now }
    {
        self.device == other.device && self.number == other.number
    }

    /// Whether more of this file may come while it is read: it is a pipe, say, and no regular file.
    pub fn is_live(&self) -> bool
        ensures live { result ≡ is_live self.now }
    {
        self.kind != FileKind::Regular
    }

    /// Whether what is written to this file would get into the other. Any number may write to a device.
    pub fn clashes(&self, other: &Identity) -> bool
        ensures clash { result ≡ clashes self.now other.now }
    {
        self.kind != FileKind::Device && self.is_one_file(other)
    }

    /// Whether what is written to this file would get into what a standard stream reads or prints. A pipe takes both, one after
    /// the other; a regular file would be written over.
    fn is_behind(&self, stream: &Option<Identity>) -> bool
        ensures behind { result ≡ is_behind self.now stream.now }
    {
        match stream {
            Some(stream) => self.kind == FileKind::Regular && self.is_one_file(stream),
            None => false,
        }
    }

    /// Whether what is written to this file would get into what any of the standard streams reads or prints.
    pub fn is_behind_any(&self, standard: &StandardFiles) -> bool
        ensures behind { result ≡ is_behind_any self.now standard.now }
    {
        self.is_behind(&standard.input)
            || self.is_behind(&standard.output)
            || self.is_behind(&standard.error)
    }
}
