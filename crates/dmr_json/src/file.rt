//! What a listing begins with.
ghost use Rattle.std.specs.Prelude.{◌≡◌, Some};
ghost use Rattle.dmr_json.specs.Records.{file_name, file_object};

use dmr_record::FileFormat;
use std::fmt;

/// The object of a file: which of the four it is.
#[derive(Drop)]
pub struct FileObject {
    /// Which it is.
    pub format: FileFormat,
}

/// The name of a format.
fn name_of(format: FileFormat) -> &'static str
    ensures value { result.now ≡ file_name format }
{
    match format {
        FileFormat::Uplink => "uplink",
        FileFormat::Downlink => "downlink",
        FileFormat::Outgoing => "outgoing",
        FileFormat::Received => "received",
    }
}

impl fmt::Display for FileObject {
    ghost output = { λ file. Some (file_object file.format) };

    fn fmt<W: fmt::Write>(&self, f: &mut fmt::Formatter<W>) -> fmt::Result {
        let name = name_of(self.format);
        write!(f, "{{\"file\":\"{name}\",\"version\":1}}")
    }
}
