//! The recording of a script, and its outgoing list.
ghost use Rattle.std.specs.Prelude.{◌≡◌, ◌≤◌, ◌⊎◌, false, true, is_some, IfOk, IfSome, OnOk};
ghost use Rattle.dmr_lines.specs.Line.{PutsError, PutsLine};
ghost use Rattle.dmr_lines.specs.Status.{failure, success};
ghost use Rattle.dmr_planning.specs.Plans.{IsPlan};
ghost use Rattle.dmr_tools.specs.Made.{HasListOf, HasRecordingOf, IsSomeMaking, PutsMade};
ghost use Rattle.dmr_tools.specs.Making.{is_any_to_output};

use crate::make_places::MakePlaces;
use crate::outputs::{BufferedOutput, BufferedOutputs, OutputsFault, open_outputs};
use crate::printing::{print_fault, print_made};
use dmr_files::{Open, OpenFault, Place, System, open_source, write_out};
use dmr_lines::{FAILURE, ToldName};
use dmr_planning::{Made, Plan, PlanFault, plan_script};
use dmr_record::{Sink, ToWrite};
use dmr_script::{RefusedLine, read_script};
use std::alloc::Global;
use std::fmt;
use std::io::{BufWriter, Write};

/// Why the files of a script weren't made.
#[derive(Clone, Copy)]
pub(crate) enum MakeFault<'a> {
    /// The script can't be opened.
    NoScript,
    /// A line of the script is refused.
    Refused(RefusedLine),
    /// The output at this place can't be opened, or may not be written.
    NoOutput(Place<'a>),
    /// An output would be sent to a terminal.
    Terminal,
    /// The output at this place can't be written.
    Write(Place<'a>),
    /// There is no memory.
    Memory,
}

impl<'a> From<OpenFault> for MakeFault<'a> {
    fn from(fault: OpenFault) -> MakeFault<'a> {
        match fault {
            OpenFault::CannotOpen => MakeFault::NoScript,
            OpenFault::Memory => MakeFault::Memory,
        }
    }
}

impl<'a> From<PlanFault> for MakeFault<'a> {
    fn from(fault: PlanFault) -> MakeFault<'a> {
        match fault {
            PlanFault::Refused(line) => MakeFault::Refused(line),
            PlanFault::Memory => MakeFault::Memory,
        }
    }
}

impl<'a> From<OutputsFault<'a>> for MakeFault<'a> {
    fn from(fault: OutputsFault<'a>) -> MakeFault<'a> {
        match fault {
            OutputsFault::Unopened(place) => MakeFault::NoOutput(place),
            OutputsFault::Memory => MakeFault::Memory,
        }
    }
}

/// A fault as it is told, behind the name of the file that has it.
#[derive(Clone, Copy)]
struct ToldFault<'a> {
    fault: MakeFault<'a>,
    script: Place<'a>,
}

impl fmt::Display for ToldFault<'_> {
    fn fmt<W: fmt::Write>(&self, f: &mut fmt::Formatter<W>) -> fmt::Result {
        let script = ToldName(self.script.name());
        match self.fault {
            MakeFault::NoScript => write!(f, "{script}: cannot open"),
            MakeFault::Refused(line) => write!(f, "{script}: {line}"),
            MakeFault::NoOutput(output) => write!(f, "{}: cannot open", ToldName(output.name())),
            MakeFault::Terminal => write!(f, "-: standard output is a terminal"),
            MakeFault::Write(output) => write!(f, "{}: write failed", ToldName(output.name())),
            MakeFault::Memory => write!(f, "out of memory"),
        }
    }
}

/// Writes the recording, to its end.
fn write_recording<'a, O: Write + Drop>(
    plan: &Plan<'_>,
    output: BufferedOutput<'a, O>,
) -> Result<Made, MakeFault<'a>>
    requires plan { IsPlan plan.now }
    requires well { ⟦<ToWrite<BufWriter<O>> as Sink>⟧.has_failed output.sink ≡ false }
    ensures recording { IfOk result
        (λ made. HasRecordingOf plan.now made (⟦<ToWrite<BufWriter<O>> as Sink>⟧.held output.entry.sink)) }
{
    let BufferedOutput { place, mut sink } = output;
    let end = plan.write_uplink(&mut sink);
    let Ok(_) = write_out(sink) else {
        return Err(MakeFault::Write(place));
    };
    match end {
        Ok(made) => Ok(made),
        Err(_) => Err(MakeFault::Write(place)),
    }
}

/// Writes the outgoing list, to its end.
fn write_list<'a, O: Write + Drop>(
    plan: &Plan<'_>,
    output: BufferedOutput<'a, O>,
) -> Result<(), MakeFault<'a>>
    requires plan { IsPlan plan.now }
    requires well { ⟦<ToWrite<BufWriter<O>> as Sink>⟧.has_failed output.sink ≡ false }
    ensures list { OnOk result (HasListOf plan.now (⟦<ToWrite<BufWriter<O>> as Sink>⟧.held output.entry.sink)) }
{
    let BufferedOutput { place, mut sink } = output;
    let end = plan.write_outgoing(&mut sink);
    let Ok(_) = write_out(sink) else {
        return Err(MakeFault::Write(place));
    };
    match end {
        Ok(()) => Ok(()),
        Err(_) => Err(MakeFault::Write(place)),
    }
}

/// Writes both files, the recording first. What is written before a fault is written out too.
fn write_files<'a, O: Write + Drop>(
    plan: &Plan<'_>,
    files: BufferedOutputs<'a, O>,
) -> Result<Made, MakeFault<'a>>
    requires plan { IsPlan plan.now }
    requires uplink { ⟦<ToWrite<BufWriter<O>> as Sink>⟧.has_failed files.uplink.sink ≡ false }
    requires outgoing { IfSome files.outgoing (λ file. ⟦<ToWrite<BufWriter<O>> as Sink>⟧.has_failed file.sink ≡ false) }
    ensures recording { IfOk result
        (λ made. HasRecordingOf plan.now made (⟦<ToWrite<BufWriter<O>> as Sink>⟧.held files.entry.uplink.sink)) }
    ensures list { OnOk result (IfSome files.entry.outgoing
        (λ file. HasListOf plan.now (⟦<ToWrite<BufWriter<O>> as Sink>⟧.held file.sink))) }
{
    let BufferedOutputs { uplink, outgoing } = files;
    let made = write_recording(plan, uplink)?;
    if let Some(list) = outgoing {
        write_list(plan, list)?;
    }
    Ok(made)
}

/// Reads the script, plans it, and makes its files. These are opened, and emptied, once nothing of the script can be refused.
fn make<'a, S: System>(
    alloc: Global,
    system: &S,
    places: &MakePlaces<'a>,
) -> Result<Made, MakeFault<'a>>
    // What was written are the files of a plan of what was read, and this counts them.
    ensures made { IfOk result (λ made. IsSomeMaking (is_some places.now.outgoing) made) }
{
    if places.is_any_to_output() && system.prints_to_terminal() {
        return Err(MakeFault::Terminal);
    }
    let Open { mut file, identity } = open_source(system, alloc, places.script)?;
    let Ok(script) = read_script(alloc, &mut file) else {
        return Err(MakeFault::Memory);
    };
    let plan = plan_script(alloc, &script, places.outgoing.is_some())?;
    let files = open_outputs(system, alloc, places, &identity)?;
    write_files(&plan, files)
}

/// Makes the files of a script, prints how that ended, and answers the exit status.
pub(crate) fn make_files<S: System, K: Sink, E: Sink>(
    alloc: Global,
    system: &S,
    places: &MakePlaces<'_>,
    out: &mut K,
    err: &mut E,
) -> u8
    requires out { K.has_failed out.old ≡ false }
    requires err { E.has_failed err.old ≡ false }
    // What is printed goes to one of the two: a success to the first, but where a file goes to standard output; a fault to the
    // second.
    ensures alone { (out.new ≡ out.old) ⊎ (err.new ≡ err.old) }
    // A success is the line of the counts of a plan: that of what was read, whose files were written.
    ensures made { result ≡ success → is_any_to_output places.now ≡ false
        → PutsMade (is_some places.now.outgoing) (K.held out.old) (K.held out.new) }
    ensures made_beside { result ≡ success → is_any_to_output places.now ≡ true
        → PutsMade (is_some places.now.outgoing) (E.held err.old) (E.held err.new) }
    ensures line { result ≡ success → is_any_to_output places.now ≡ false → PutsLine (K.held out.old) (K.held out.new) }
    ensures line_alone { result ≡ success → is_any_to_output places.now ≡ false → err.new ≡ err.old }
    ensures beside_line { result ≡ success → is_any_to_output places.now ≡ true → PutsLine (E.held err.old) (E.held err.new) }
    ensures beside { is_any_to_output places.now ≡ true → out.new ≡ out.old }
    ensures error { result ≡ failure → K.has_failed out.new ≡ false → E.has_failed err.new ≡ false
        → PutsError (E.held err.old) (E.held err.new) }
    ensures status { result ≤ 1 }
    ensures out_failed { K.has_failed out.new ≡ true → result ≡ failure }
    ensures err_failed { E.has_failed err.new ≡ true → result ≡ failure }
{
    match make(alloc, system, places) {
        Ok(made) => print_made(&made, places.is_any_to_output(), out, err),
        Err(fault) => {
            let script = places.script;
            print_fault(alloc, &ToldFault { fault, script }, err);
            FAILURE
        }
    }
}
