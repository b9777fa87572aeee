//! A run over files at their places that is watched, so that more can be told of how it ended.
ghost use Rattle.std.specs.Prelude.{◌≡◌, ◌≤◌, ◌+◌, ◌^◌, true, false, List, [], None, IfOk, IfErr};
ghost use Rattle.dmr_record.specs.Outgoing.{Sending};
ghost use Rattle.dmr_repeater.specs.Causes.{is_of_its_stream};
ghost use Rattle.dmr_repeater.specs.Runs.{HasOutgoing};
ghost use Rattle.dmr_program.specs.Devices.{list_opened};
ghost use Rattle.dmr_program.specs.Ending.{EndsOver, IfDone, IfFault, IsRefused, IfTerminal};
ghost use Rattle.dmr_program.specs.RunEnd.{end_of};
ghost use Rattle.dmr_program.specs.Summary.{is_sent_out};

use crate::devices::{OutgoingList, ReceivedFile};
use crate::more::{More, Passed, Watched};
use crate::opening::{Opened, file_if_any, open_files, sent_to_terminal};
use crate::run_end::RunEnd;
use crate::running::{end_with, run_over, with_memory};
use dmr_command::Places;
use dmr_files::{System, buffered_sink, buffered_source, kept_back};
use dmr_record::{DeviceFault, FileFormat, FromBuffered, Sink, Source, ToWrite};
use dmr_repeater::{RunFault, Summary};
use dmr_settings::Config;
use dmr_watch::{Ear, KeptReader, WatchedSource, WatchedWriter};
use std::alloc::Global;
use std::io::{BufWriter, Read, Write};

/// How a run ended, and what more can be told of that.
#[derive(Clone, Copy, Drop)]
pub(crate) struct WatchedEnd {
    pub(crate) end: RunEnd,
    pub(crate) more: Option<More>,
}

/// Does what `run_places` does, and watches it.
pub(crate) fn run_places_watched<S: System>(
    system: &S,
    alloc: Global,
    config: Config,
    places: &Places<'_>,
) -> WatchedEnd
    ensures few { IfDone result.end (λ summary. summary.frames ≤ 2 ^ 20 + 6) }
    ensures kind { IfFault result.end (λ fault. is_of_its_stream fault ≡ true) }
    ensures terminal { IfTerminal result.end (λ stream. is_sent_out places.now stream ≡ true) }
    ensures set { IsRefused result.end → ⊥ }
    ensures unlisted { places.now.outgoing ≡ None → EndsOver [] result.end }
{
    if let Some(stream) = sent_to_terminal(system, places) {
        return WatchedEnd {
            end: RunEnd::Terminal(stream),
            more: None,
        };
    }
    match open_files(system, places) {
        Ok(files) => run_files_watched(alloc, config, files),
        Err(fault) => WatchedEnd {
            end: RunEnd::CannotOpen(fault.stream),
            more: Some(More::Unopened(fault.stream, fault.reason)),
        },
    }
}

/// Runs over open files, and watches that.
fn run_files_watched<I: Read + Drop, O: Write + Drop>(
    alloc: Global,
    config: Config,
    files: Opened<I, O>,
) -> WatchedEnd
    ensures here { IfTerminal result.end (λ stream. ⊥) }
    ensures few { IfDone result.end (λ summary. summary.frames ≤ 2 ^ 20 + 6) }
    ensures kind { IfFault result.end (λ fault. is_of_its_stream fault ≡ true) }
    ensures set { IsRefused result.end → ⊥ }
    ensures listed { (sendings : List Sending) → HasOutgoing sendings (list_opened I.remaining files.outgoing)
        → EndsOver sendings result.end }
{
    let capacity = kept_back(files.is_live());
    let Opened {
        uplink,
        outgoing,
        downlink,
        received,
    } = files;
    match run_watched(
        alloc,
        config,
        capacity,
        uplink.file,
        OutgoingList::of_open(outgoing),
        downlink.file,
        ReceivedFile::of(file_if_any(received)),
    ) {
        Ok((end, more)) => WatchedEnd {
            end: RunEnd::of(end),
            more,
        },
        Err(fault) => WatchedEnd {
            end: RunEnd::Fault(fault),
            more: None,
        },
    }
}

/// An input that is watched, behind its buffer.
type WatchedInput<R> = WatchedSource<FromBuffered<KeptReader<R>>>;

/// An output that is watched, behind its buffer.
type WatchedOutput<W> = ToWrite<BufWriter<WatchedWriter<W>>>;

/// An input of a run, watched in front of its buffer and behind it.
fn watched_input<R: Read + Drop>(
    alloc: Global,
    reader: R,
    format: FileFormat,
    colour: u8,
) -> Result<WatchedInput<R>, RunFault>
    ensures well { IfOk result (λ input. ⟦<WatchedInput<R> as Source>⟧.has_failed input ≡ false) }
    ensures octets { IfOk result (λ input. ⟦<WatchedInput<R> as Source>⟧.left input ≡ R.remaining reader) }
    ensures fault { IfErr result (λ e. e ≡ RunFault.Memory) }
{
    let source = with_memory(buffered_source(alloc, KeptReader::new(reader)))?;
    Ok(WatchedSource::new(source, Ear::new(format, colour)))
}

/// An output of a run, watched behind its buffer.
fn watched_output<W: Write + Drop>(
    alloc: Global,
    capacity: usize,
    writer: W,
    format: FileFormat,
) -> Result<WatchedOutput<W>, RunFault>
    ensures well { IfOk result (λ output. ⟦<WatchedOutput<W> as Sink>⟧.has_failed output ≡ false) }
    ensures fault { IfErr result (λ e. e ≡ RunFault.Memory) }
{
    with_memory(buffered_sink(alloc, capacity, WatchedWriter::new(writer, format)))
}

/// What was watched of an output that is written out, and whether it could be.
#[derive(Clone, Copy, Drop)]
struct WrittenOut {
    written: Result<(), DeviceFault>,
    passed: Passed,
}

/// What was watched of a writer.
fn passed_of<W: Write>(writer: &WatchedWriter<W>) -> Passed {
    Passed {
        reached: writer.reached(),
        error: writer.error(),
    }
}

/// Writes out what the buffer of an output still holds, and answers what was watched of it.
fn write_out_watched<W: Write + Drop>(sink: WatchedOutput<W>) -> WrittenOut {
    match sink.into_inner().into_inner() {
        Ok(writer) => WrittenOut {
            written: Ok(()),
            passed: passed_of(&writer),
        },
        Err(fault) => WrittenOut {
            written: Err(DeviceFault),
            passed: passed_of(fault.into_inner().get_ref()),
        },
    }
}

/// What was watched of an input.
fn let_go<R: Read + Drop>(input: WatchedInput<R>) -> (Passed, Ear) {
    let (source, ear) = input.into_parts();
    let reader = source.into_inner().into_inner();
    let passed = Passed {
        reached: ear.reached,
        error: reader.error(),
    };
    (passed, ear)
}

/// Runs as `run_buffered` does, and watches that. At an `Err` there is no memory for what that takes, and nothing was touched.
fn run_watched<U: Read + Drop, O: Read + Drop, D: Write + Drop, R: Write + Drop>(
    alloc: Global,
    config: Config,
    capacity: usize,
    uplink: U,
    outgoing: O,
    downlink: D,
    received: R,
) -> Result<(Result<Summary, RunFault>, Option<More>), RunFault>
    ensures few { IfOk result (λ watched. IfOk watched.0 (λ summary. summary.frames ≤ 2 ^ 20 + 6)) }
    ensures kind { IfOk result (λ watched. IfErr watched.0 (λ e. is_of_its_stream e ≡ true)) }
    ensures memory { IfErr result (λ e. e ≡ RunFault.Memory) }
    ensures listed { (sendings : List Sending) → HasOutgoing sendings (O.remaining outgoing)
        → IfOk result (λ watched. EndsOver sendings (end_of watched.0)) }
{
    let colour = config.colour;
    let mut uplink = watched_input(alloc, uplink, FileFormat::Uplink, colour)?;
    let mut outgoing = watched_input(alloc, outgoing, FileFormat::Outgoing, colour)?;
    let mut downlink = watched_output(alloc, capacity, downlink, FileFormat::Downlink)?;
    let mut received = watched_output(alloc, capacity, received, FileFormat::Received)?;
    let end = run_over(
        alloc,
        config,
        &mut uplink,
        &mut outgoing,
        &mut downlink,
        &mut received,
    );
    let downlink = write_out_watched(downlink);
    let received = write_out_watched(received);
    let end = end_with(end, downlink.written, received.written);
    let (uplink, ear) = let_go(uplink);
    let (outgoing, _) = let_go(outgoing);
    let watched = Watched {
        uplink,
        outgoing,
        downlink: downlink.passed,
        received: received.passed,
        heard: ear.heard,
    };
    Ok((end, watched.more(&end)))
}
