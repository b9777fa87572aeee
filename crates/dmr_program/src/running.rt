//! A run over files at their places, with buffers between.
ghost use Rattle.std.specs.Prelude.{◌≡◌, ◌≤◌, ◌+◌, ◌^◌, true, false, List, [], None, Ok, IfOk, IfErr};
ghost use Rattle.dmr_record.specs.Outgoing.{Sending};
ghost use Rattle.dmr_repeater.specs.Causes.{is_of_its_stream};
ghost use Rattle.dmr_repeater.specs.Runs.{HasOutgoing};
ghost use Rattle.dmr_program.specs.Devices.{list_opened};
ghost use Rattle.dmr_program.specs.Ending.{EndsOver, IfDone, IfFault, IsRefused, IfTerminal};
ghost use Rattle.dmr_program.specs.RunEnd.{end_of};
ghost use Rattle.dmr_program.specs.Summary.{is_sent_out};

use crate::devices::{OutgoingList, ReceivedFile};
use crate::opening::{Opened, file_if_any, open_files, sent_to_terminal};
use crate::run_end::RunEnd;
use dmr_command::Places;
use dmr_files::{System, buffered_sink, buffered_source, kept_back, write_out};
use dmr_record::{DeviceFault, RecordFault, Sink, Source};
use dmr_repeater::{RunFault, Stream, Summary, run};
use dmr_settings::Config;
use std::alloc::{AllocError, Global};
use std::io::{Read, Write};

/// Opens the files at these places, runs over them, and answers how the run ended. Where an input is no regular file, there is no
/// buffer in front of the outputs. No output is sent to a terminal.
pub fn run_places<S: System>(
    system: &S,
    alloc: Global,
    config: Config,
    places: &Places<'_>,
) -> RunEnd
    // A recording has at most 1,048,576 frames, and the downlink six more.
    ensures few { IfDone result (λ summary. summary.frames ≤ 2 ^ 20 + 6) }
    // A fault is one that its file can have.
    ensures kind { IfFault result (λ fault. is_of_its_stream fault ≡ true) }
    // What isn't sent to a terminal is an output that is standard output.
    ensures terminal { IfTerminal result (λ stream. is_sent_out places.now stream ≡ true) }
    // The settings are none that are refused.
    ensures set { IsRefused result → ⊥ }
    // Without an outgoing list the run is one over a list that has no record.
    ensures unlisted { places.now.outgoing ≡ None → EndsOver [] result }
{
    if let Some(stream) = sent_to_terminal(system, places) {
        return RunEnd::Terminal(stream);
    }
    match open_files(system, places) {
        Ok(files) => run_files(alloc, config, files),
        Err(fault) => RunEnd::CannotOpen(fault.stream),
    }
}

/// Runs over open files.
fn run_files<I: Read + Drop, O: Write + Drop>(
    alloc: Global,
    config: Config,
    files: Opened<I, O>,
) -> RunEnd
    ensures here { IfTerminal result (λ stream. ⊥) }
    ensures few { IfDone result (λ summary. summary.frames ≤ 2 ^ 20 + 6) }
    ensures kind { IfFault result (λ fault. is_of_its_stream fault ≡ true) }
    ensures set { IsRefused result → ⊥ }
    ensures listed { (sendings : List Sending) → HasOutgoing sendings (list_opened I.remaining files.outgoing)
        → EndsOver sendings result }
{
    let capacity = kept_back(files.is_live());
    let Opened {
        uplink,
        outgoing,
        downlink,
        received,
    } = files;
    RunEnd::of(run_buffered(
        alloc,
        config,
        capacity,
        uplink.file,
        OutgoingList::of_open(outgoing),
        downlink.file,
        ReceivedFile::of(file_if_any(received)),
    ))
}

/// Runs over these devices as dmr_repeater does. Its clauses say what shows in how the run ended, and the list that it is over.
pub(crate) fn run_over<U: Source, O: Source, D: Sink, R: Sink>(
    alloc: Global,
    config: Config,
    uplink: &mut U,
    outgoing: &mut O,
    downlink: &mut D,
    received: &mut R,
) -> Result<Summary, RunFault>
    requires uplink { U.has_failed uplink.old ≡ false }
    requires outgoing { O.has_failed outgoing.old ≡ false }
    requires downlink { D.has_failed downlink.old ≡ false }
    requires received { R.has_failed received.old ≡ false }
    ensures few { IfOk result (λ summary. summary.frames ≤ 2 ^ 20 + 6) }
    ensures kind { IfErr result (λ e. is_of_its_stream e ≡ true) }
    ensures listed { (sendings : List Sending) → HasOutgoing sendings (O.left outgoing.old) → EndsOver sendings (end_of result) }
{
    run(alloc, config, uplink, outgoing, downlink, received)
}

/// Runs over readers and writers, each behind a buffer, that of a writer with this capacity. What is written before a fault is
/// written out too, and the fault of the run goes before one of writing out.
fn run_buffered<U: Read + Drop, O: Read + Drop, D: Write + Drop, R: Write + Drop>(
    alloc: Global,
    config: Config,
    capacity: usize,
    uplink: U,
    outgoing: O,
    downlink: D,
    received: R,
) -> Result<Summary, RunFault>
    ensures few { IfOk result (λ summary. summary.frames ≤ 2 ^ 20 + 6) }
    ensures kind { IfErr result (λ e. is_of_its_stream e ≡ true) }
    ensures listed { (sendings : List Sending) → HasOutgoing sendings (O.remaining outgoing)
        → EndsOver sendings (end_of result) }
{
    let mut uplink = with_memory(buffered_source(alloc, uplink))?;
    let mut outgoing = with_memory(buffered_source(alloc, outgoing))?;
    let mut downlink = with_memory(buffered_sink(alloc, capacity, downlink))?;
    let mut received = with_memory(buffered_sink(alloc, capacity, received))?;
    let end = run_over(
        alloc,
        config,
        &mut uplink,
        &mut outgoing,
        &mut downlink,
        &mut received,
    );
    let downlink = write_out(downlink);
    let received = write_out(received);
    end_with(end, downlink, received)
}

/// How a run ended whose outputs were then written out: its own fault goes first.
pub(crate) fn end_with<D: Drop, R: Drop>(
    end: Result<Summary, RunFault>,
    downlink: Result<D, DeviceFault>,
    received: Result<R, DeviceFault>,
) -> Result<Summary, RunFault>
    ensures few { IfOk end (λ summary. summary.frames ≤ 2 ^ 20 + 6) → IfOk result (λ summary. summary.frames ≤ 2 ^ 20 + 6) }
    ensures kind { IfErr end (λ e. is_of_its_stream e ≡ true) → IfErr result (λ e. is_of_its_stream e ≡ true) }
    ensures listed { (sendings : List Sending) → EndsOver sendings (end_of end) → EndsOver sendings (end_of result) }
{
    let summary = end?;
    with_octets(downlink, Stream::Downlink)?;
    with_octets(received, Stream::Received)?;
    Ok(summary)
}

/// What a run ends with where there is no memory for a buffer.
pub(crate) fn with_memory<T>(made: Result<T, AllocError>) -> Result<T, RunFault>
    ensures value { IfOk result (λ value. made ≡ Ok value) }
    ensures fault { IfErr result (λ e. e ≡ RunFault.Memory) }
{
    match made {
        Ok(value) => Ok(value),
        Err(_) => Err(RunFault::Memory),
    }
}

/// What a run ends with where a file can't be written out.
fn with_octets<W: Drop>(written: Result<W, DeviceFault>, stream: Stream) -> Result<(), RunFault>
    ensures fault { IfErr result (λ e. e ≡ RunFault.File stream RecordFault.Write) }
{
    match written {
        Ok(_) => Ok(()),
        Err(_) => Err(RunFault::File(stream, RecordFault::Write)),
    }
}
