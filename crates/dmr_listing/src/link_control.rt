//! What a line says of a link control.
use crate::digits::Digits;
use dmr_link::{CallKind, FullLc, ServiceOptions, VoiceLc};
use std::fmt;

/// A link control, printed as who calls whom, or as its name and its octets.
#[derive(Drop)]
pub(crate) struct LinkControl(pub(crate) FullLc);

/// The options of a call that have names, in the order in which they are told. ETSI TS 102 361-2, clause 7.2.1.
const OPTIONS: [(ServiceOptions, &str); 4] = [
    (ServiceOptions::EMERGENCY, "emergency"),
    (ServiceOptions::PRIVACY, "privacy"),
    (ServiceOptions::BROADCAST, "broadcast"),
    (ServiceOptions::OVCM, "OVCM"),
];

/// What a link control that is no call is named, by its opcode: by a number where it has no name.
#[derive(Clone, Copy, Drop)]
pub struct LinkControlName(pub u8);

/// The names of the link controls that are no call, from opcode 4 on. ETSI TS 102 361-2, clause 7.1.1 and annex B.1.
fn name_of(flco: u8) -> Option<&'static str> {
    match flco {
        4 => Some("talker alias header"),
        5 => Some("talker alias block 1"),
        6 => Some("talker alias block 2"),
        7 => Some("talker alias block 3"),
        8 => Some("GPS info"),
        _ => None,
    }
}

/// What a call is to.
fn kind_name(kind: CallKind) -> &'static str {
    match kind {
        CallKind::Group => "group",
        CallKind::UnitToUnit => "unit",
    }
}

/// Says who calls whom, and the options that are set.
fn write_call<W: fmt::Write>(call: &VoiceLc, f: &mut fmt::Formatter<W>) -> fmt::Result {
    let VoiceLc {
        kind,
        options,
        target,
        source,
    } = *call;
    let kind = kind_name(kind);
    write!(f, "{kind} call {source} -> {target}")?;
    for (option, name) in OPTIONS {
        if options.contains(option) {
            write!(f, ", {name}")?;
        }
    }
    match options.priority() {
        0 => Ok(()),
        priority => write!(f, ", priority {priority}"),
    }
}

impl fmt::Display for LinkControl {
    fn fmt<W: fmt::Write>(&self, f: &mut fmt::Formatter<W>) -> fmt::Result {
        let LinkControl(lc) = *self;
        if let Some(call) = lc.voice() {
            return write_call(&call, f);
        }
        let name = LinkControlName(lc.flco);
        write!(f, "{name}, {}", Digits(&lc.body))
    }
}

impl fmt::Display for LinkControlName {
    fn fmt<W: fmt::Write>(&self, f: &mut fmt::Formatter<W>) -> fmt::Result {
        match name_of(self.0) {
            Some(name) => write!(f, "{name}"),
            None => write!(f, "LC opcode {}", self.0),
        }
    }
}
