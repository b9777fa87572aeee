//! What is printed as a line, and in which notation.
ghost use Rattle.dmr_show.specs.declared.form.Notation as declared;
ghost use Rattle.dmr_show.specs.declared.form.Notation.TheVariants.{Text, Json};

use crate::file_summary::FileSummary;
use dmr_json::{BurstObject, FileObject, ListEnd, OutgoingObject, ReceivedObject, RecordingEnd};
use dmr_listing::{BurstLine, OutgoingLine, ReceivedLine};
use std::fmt::Display;

/// Prints as a line.
pub(crate) trait Written: Display {
    /// What the line is written in.
    ghost notation: { Self → declared.Notation };
}

impl Written for BurstLine {
    ghost notation = { λ line. Text };
}

impl Written for OutgoingLine<'_> {
    ghost notation = { λ line. Text };
}

impl Written for ReceivedLine<'_> {
    ghost notation = { λ line. Text };
}

impl Written for FileSummary {
    ghost notation = { λ line. Text };
}

impl Written for FileObject {
    ghost notation = { λ object. Json };
}

impl Written for BurstObject<'_> {
    ghost notation = { λ object. Json };
}

impl Written for OutgoingObject<'_> {
    ghost notation = { λ object. Json };
}

impl Written for ReceivedObject<'_> {
    ghost notation = { λ object. Json };
}

impl Written for RecordingEnd {
    ghost notation = { λ object. Json };
}

impl Written for ListEnd {
    ghost notation = { λ object. Json };
}
