//! A file of a run, carried from another format or to it, or with wrong bits.
ghost use Rattle.std.specs.Prelude.{◌≡◌, ◌≤◌, ◌⊎◌, false, true};
ghost use Rattle.dmr_files.specs.Place.{is_standard};
ghost use Rattle.dmr_lines.specs.Line.{PutsError, PutsLine};
ghost use Rattle.dmr_lines.specs.Status.{failure, success};
ghost use Rattle.dmr_tools.specs.Carrying.{is_to_octets};

use crate::datagrams::is_slot;
use crate::printing::{print_counts, print_fault};
use crate::request::{ExportFormat, ImportFormat, PairPlaces};
use dmr_capture::CaptureFault;
use dmr_damage::{Damage, DamageEnd, DamageSettings, Damaged, SettingsFault, damage_recording};
use dmr_datagrams::{ExportedDatagrams, ImportedDatagrams, export_datagrams, import_datagrams};
use dmr_dmrd::{ImportedBursts, import_dmrd};
use dmr_dmrd_export::{ExportedBursts, export_dmrd};
use dmr_files::{BufferedPair, PairFault, System, is_sent_to_terminal, open_buffered, write_out};
use dmr_lines::{FAILURE, SUCCESS, ToldName};
use dmr_record::{Sink, Source};
use dmr_recording::{FaultLine, Stop};
use dmr_text::{Carried, ExportEnd, ImportEnd, LineFault, export_text, import_text};
use std::alloc::Global;
use std::fmt;

/// How one file is made of another.
#[derive(Clone, Copy)]
pub(crate) enum Direction {
    /// From this format to a file of a run.
    Import(ImportFormat),
    /// From a file of a run to this format.
    Export(ExportFormat),
    /// From a recording to one with wrong bits, drawn by a seed.
    Damage { damage: Damage, seed: u64 },
}

impl Direction {
    /// Whether what is written is octets, which are nothing to look at, and no text.
    fn is_to_octets(self) -> bool
        ensures octets { result ≡ is_to_octets self }
    {
        match self {
            Direction::Import(_) | Direction::Damage { .. } => true,
            Direction::Export(ExportFormat::Datagrams(_) | ExportFormat::Dmrd(_)) => true,
            Direction::Export(ExportFormat::Text) => false,
        }
    }
}

/// Why a file wasn't carried to its end.
#[derive(Clone, Copy, Drop)]
pub(crate) enum CarryFault {
    /// The input can't be opened.
    NoInput,
    /// The output can't be opened, or may not be written.
    NoOutput,
    /// The output is a file, and would be sent to a terminal.
    Terminal,
    /// The file is at fault.
    File(FaultLine),
    /// The text is at fault.
    Text(LineFault),
    /// The capture is at fault.
    Capture(CaptureFault),
    /// The slot is neither 1 nor 2, which the parser of the command line lets none be.
    Slot,
    /// The input is no recording of an uplink.
    NotUplink,
    /// The damage is out of its range, which the parser of the command line lets none be.
    Settings(SettingsFault),
    /// The output can't be written.
    Write,
    /// There is no memory.
    Memory,
}

impl From<PairFault> for CarryFault {
    fn from(fault: PairFault) -> CarryFault {
        match fault {
            PairFault::Input => CarryFault::NoInput,
            PairFault::Output => CarryFault::NoOutput,
            PairFault::Memory => CarryFault::Memory,
        }
    }
}

impl From<SettingsFault> for CarryFault {
    fn from(fault: SettingsFault) -> CarryFault {
        CarryFault::Settings(fault)
    }
}

impl From<dmr_datagrams::ExportEnd> for CarryFault {
    fn from(end: dmr_datagrams::ExportEnd) -> CarryFault {
        match end {
            dmr_datagrams::ExportEnd::File(fault) => CarryFault::File(fault),
            dmr_datagrams::ExportEnd::Output => CarryFault::Write,
            dmr_datagrams::ExportEnd::Memory => CarryFault::Memory,
        }
    }
}

impl From<dmr_datagrams::ImportEnd> for CarryFault {
    fn from(end: dmr_datagrams::ImportEnd) -> CarryFault {
        match end {
            dmr_datagrams::ImportEnd::Capture(fault) => CarryFault::Capture(fault),
            dmr_datagrams::ImportEnd::Output => CarryFault::Write,
            dmr_datagrams::ImportEnd::Memory => CarryFault::Memory,
        }
    }
}

impl From<dmr_dmrd::ImportEnd> for CarryFault {
    fn from(end: dmr_dmrd::ImportEnd) -> CarryFault {
        match end {
            dmr_dmrd::ImportEnd::Capture(fault) => CarryFault::Capture(fault),
            dmr_dmrd::ImportEnd::Output => CarryFault::Write,
            dmr_dmrd::ImportEnd::Memory => CarryFault::Memory,
        }
    }
}

impl From<Stop> for CarryFault {
    fn from(stop: Stop) -> CarryFault {
        match stop {
            Stop::File(fault) => CarryFault::File(fault),
            Stop::Output => CarryFault::Write,
        }
    }
}

impl From<DamageEnd> for CarryFault {
    fn from(end: DamageEnd) -> CarryFault {
        match end {
            DamageEnd::File(fault) => CarryFault::File(fault),
            DamageEnd::NotUplink => CarryFault::NotUplink,
            DamageEnd::Output => CarryFault::Write,
        }
    }
}

impl From<ExportEnd> for CarryFault {
    fn from(end: ExportEnd) -> CarryFault {
        match end {
            ExportEnd::File(fault) => CarryFault::File(fault),
            ExportEnd::Output => CarryFault::Write,
            ExportEnd::Memory => CarryFault::Memory,
        }
    }
}

impl From<ImportEnd> for CarryFault {
    fn from(end: ImportEnd) -> CarryFault {
        match end {
            ImportEnd::Text(fault) => CarryFault::Text(fault),
            ImportEnd::Output => CarryFault::Write,
            ImportEnd::Memory => CarryFault::Memory,
        }
    }
}

/// What was done where one file was made of another.
#[derive(Clone, Copy, Drop)]
pub(crate) enum Done {
    /// It was carried from a format, or to one.
    Carried(Carried),
    /// It was written with wrong bits.
    Damaged(Damaged),
    /// A list was made of a capture.
    ImportedDatagrams(ImportedDatagrams),
    /// A capture was made of a list.
    ExportedDatagrams(ExportedDatagrams),
    /// A recording was made of a capture.
    ImportedBursts(ImportedBursts),
    /// A capture was made of a downlink.
    ExportedBursts(ExportedBursts),
}

impl fmt::Display for Done {
    fn fmt<W: fmt::Write>(&self, f: &mut fmt::Formatter<W>) -> fmt::Result {
        match self {
            Done::Carried(carried) => carried.fmt(f),
            Done::Damaged(damaged) => damaged.fmt(f),
            Done::ImportedDatagrams(imported) => imported.fmt(f),
            Done::ExportedDatagrams(exported) => exported.fmt(f),
            Done::ImportedBursts(imported) => imported.fmt(f),
            Done::ExportedBursts(exported) => exported.fmt(f),
        }
    }
}

/// A fault as it is told, behind the name of the file that has it.
#[derive(Clone, Copy)]
struct ToldFault<'a> {
    fault: &'a CarryFault,
    input: ToldName<'a>,
    output: ToldName<'a>,
}

impl fmt::Display for ToldFault<'_> {
    fn fmt<W: fmt::Write>(&self, f: &mut fmt::Formatter<W>) -> fmt::Result {
        let ToldFault {
            fault,
            input,
            output,
        } = *self;
        match fault {
            CarryFault::NoInput => write!(f, "{input}: cannot open"),
            CarryFault::NoOutput => write!(f, "{output}: cannot open"),
            CarryFault::Terminal => write!(f, "{output}: standard output is a terminal"),
            CarryFault::File(fault) => write!(f, "{input}: {fault}"),
            CarryFault::Text(fault) => write!(f, "{input}: {fault}"),
            CarryFault::Capture(fault) => write!(f, "{input}: {fault}"),
            CarryFault::Slot => write!(f, "a slot is 1 or 2"),
            CarryFault::Settings(fault) => write!(f, "{fault}"),
            CarryFault::NotUplink => write!(f, "{input}: not an uplink"),
            CarryFault::Write => write!(f, "{output}: write failed"),
            CarryFault::Memory => write!(f, "out of memory"),
        }
    }
}

/// Makes one file of another, from a source to a sink.
fn carry_between<S: Source, K: Sink>(
    alloc: Global,
    direction: Direction,
    source: &mut S,
    sink: &mut K,
) -> Result<Done, CarryFault>
    requires source { S.has_failed source.old ≡ false }
    requires sink { K.has_failed sink.old ≡ false }
{
    match direction {
        Direction::Import(ImportFormat::Text) => {
            Ok(Done::Carried(import_text(alloc, source, sink)?))
        }
        Direction::Import(ImportFormat::Datagrams(settings)) => {
            if !is_slot(settings.slot) {
                return Err(CarryFault::Slot);
            }
            let imported = import_datagrams(alloc, settings, source, sink)?;
            Ok(Done::ImportedDatagrams(imported))
        }
        Direction::Import(ImportFormat::Dmrd(settings)) => {
            let imported = import_dmrd(alloc, &settings, source, sink)?;
            Ok(Done::ImportedBursts(imported))
        }
        Direction::Export(ExportFormat::Text) => {
            Ok(Done::Carried(export_text(alloc, source, sink)?))
        }
        Direction::Export(ExportFormat::Datagrams(settings)) => {
            let exported = export_datagrams(alloc, settings, source, sink)?;
            Ok(Done::ExportedDatagrams(exported))
        }
        Direction::Export(ExportFormat::Dmrd(settings)) => {
            let exported = export_dmrd(&settings, source, sink)?;
            Ok(Done::ExportedBursts(exported))
        }
        Direction::Damage { damage, seed } => {
            let settings = DamageSettings::new(damage, seed)?;
            Ok(Done::Damaged(damage_recording(&settings, source, sink)?))
        }
    }
}

/// Makes the file at one place of that at the other. What is written before a fault is written out too, and that fault goes before
/// one of writing out.
fn carry<S: System>(
    alloc: Global,
    system: &S,
    direction: Direction,
    places: PairPlaces<'_>,
) -> Result<Done, CarryFault> {
    if direction.is_to_octets() && is_sent_to_terminal(system, places.output) {
        return Err(CarryFault::Terminal);
    }
    let BufferedPair {
        mut source,
        mut sink,
    } = open_buffered(system, alloc, places.input, places.output)?;
    let end = carry_between(alloc, direction, &mut source, &mut sink);
    let written = write_out(sink);
    let done = end?;
    match written {
        Ok(_) => Ok(done),
        Err(_) => Err(CarryFault::Write),
    }
}

/// Prints how making a file ended, and answers the exit status: what was done, or a fault, which goes to the second sink.
fn print_end<K: Sink, E: Sink>(
    alloc: Global,
    end: &Result<Done, CarryFault>,
    places: PairPlaces<'_>,
    out: &mut K,
    err: &mut E,
) -> u8
    requires out { K.has_failed out.old ≡ false }
    requires err { E.has_failed err.old ≡ false }
    ensures alone { (out.new ≡ out.old) ⊎ (err.new ≡ err.old) }
    ensures line { result ≡ success → is_standard places.entry.output ≡ false → PutsLine (K.held out.old) (K.held out.new) }
    ensures line_alone { result ≡ success → is_standard places.entry.output ≡ false → err.new ≡ err.old }
    ensures beside_line { result ≡ success → is_standard places.entry.output ≡ true → PutsLine (E.held err.old) (E.held err.new) }
    ensures beside { is_standard places.entry.output ≡ true → out.new ≡ out.old }
    ensures error { result ≡ failure → K.has_failed out.new ≡ false → E.has_failed err.new ≡ false
        → PutsError (E.held err.old) (E.held err.new) }
    ensures status { result ≤ 1 }
    ensures out_failed { K.has_failed out.new ≡ true → result ≡ failure }
    ensures err_failed { E.has_failed err.new ≡ true → result ≡ failure }
{
    match end {
        Ok(done) => print_counts(done, places.output.is_standard(), out, err),
        Err(fault) => {
            let told = ToldFault {
                fault,
                input: ToldName(places.input.name()),
                output: ToldName(places.output.name()),
            };
            print_fault(alloc, &told, err);
            FAILURE
        }
    }
}

/// Makes the file at one place of that at the other, prints how that ended, and answers the exit status.
pub(crate) fn carry_file<S: System, K: Sink, E: Sink>(
    alloc: Global,
    system: &S,
    direction: Direction,
    places: PairPlaces<'_>,
    out: &mut K,
    err: &mut E,
) -> u8
    requires out { K.has_failed out.old ≡ false }
    requires err { E.has_failed err.old ≡ false }
    // What is printed goes to one of the two: a success to the first, but where that is the output; a fault to the second.
    ensures alone { (out.new ≡ out.old) ⊎ (err.new ≡ err.old) }
    ensures line { result ≡ success → is_standard places.entry.output ≡ false → PutsLine (K.held out.old) (K.held out.new) }
    ensures line_alone { result ≡ success → is_standard places.entry.output ≡ false → err.new ≡ err.old }
    ensures beside_line { result ≡ success → is_standard places.entry.output ≡ true → PutsLine (E.held err.old) (E.held err.new) }
    ensures beside { is_standard places.entry.output ≡ true → out.new ≡ out.old }
    ensures error { result ≡ failure → K.has_failed out.new ≡ false → E.has_failed err.new ≡ false
        → PutsError (E.held err.old) (E.held err.new) }
    ensures status { result ≤ 1 }
    ensures out_failed { K.has_failed out.new ≡ true → result ≡ failure }
    ensures err_failed { E.has_failed err.new ≡ true → result ≡ failure }
{
    let end = carry(alloc, system, direction, places);
    print_end(alloc, &end, places, out, err)
}
