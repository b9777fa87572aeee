//! What an entry is, in words.
use dmr_log::{ControlKind, Subject};
use dmr_log_forms::{EntryKind, LogEntry};
use std::fmt;

/// What an entry is, in words: its name, of a control signalling block its opcode and feature set too, and whether a call is late.
#[derive(Clone, Copy, Drop)]
pub(crate) struct What {
    kind: EntryKind,
    /// The opcode and the feature set, where nothing else tells control signalling blocks apart.
    block: Option<(u8, u8)>,
    is_late: bool,
}

/// The opcode and the feature set of a control signalling block that has no name of its own.
fn block_of(entry: &LogEntry<'_>) -> Option<(u8, u8)> {
    let LogEntry::Transmission { ended, .. } = entry else {
        return None;
    };
    match ended.transmission.subject {
        Subject::Controls(
            ControlKind::Csbk {
                opcode,
                feature_set,
            },
        ) => Some((opcode, feature_set)),
        _ => None,
    }
}

impl What {
    /// What an entry is.
    pub(crate) fn of_entry(entry: &LogEntry<'_>) -> What {
        let columns = entry.columns();
        What {
            kind: columns.kind,
            block: block_of(entry),
            is_late: columns.is_late == Some(true),
        }
    }
}

impl fmt::Display for What {
    fn fmt<W: fmt::Write>(&self, f: &mut fmt::Formatter<W>) -> fmt::Result {
        write!(f, "{}", self.kind)?;
        if let Some((opcode, feature_set)) = self.block {
            write!(f, " opcode {opcode}, fid {feature_set}")?;
        }
        if self.is_late {
            write!(f, ", late")?;
        }
        Ok(())
    }
}
