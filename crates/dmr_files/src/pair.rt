//! An input and an output of a command, opened and told apart.
ghost use Rattle.std.specs.Prelude.{◌≡◌, ◌↔◌, false, true, IsTrue, IfOk, IfErr};
ghost use Rattle.dmr_files.specs.Identity.{clashes};
ghost use Rattle.dmr_files.specs.Pair.{IsApartFrom};
ghost use Rattle.dmr_files.specs.Place.{is_standard};

use crate::buffering::{buffered_sink, buffered_source, kept_back};
use crate::identity::Identity;
use crate::place::Place;
use crate::system::{Open, StandardFiles, System};
use dmr_record::{FromBuffered, Sink, Source, ToWrite};
use std::alloc::{AllocError, Global};
use std::io::{BufWriter, Read, Write};

/// An input and an output, open.
#[derive(Drop)]
struct Pair<I, O> {
    input: Open<I>,
    output: Open<O>,
}

/// An input and an output, open, each behind a buffer. The output has none where the input is live.
#[derive(Drop)]
pub struct BufferedPair<I: Read + Drop, O: Write + Drop> {
    pub source: FromBuffered<I>,
    pub sink: ToWrite<BufWriter<O>>,
}

/// Why a pair of files can't be used.
#[derive(Clone, Copy, Debug, Drop, PartialEq, Eq)]
pub enum PairFault {
    /// The input can't be opened.
    Input,
    /// The output can't be opened or emptied, is the input, or stands behind a standard stream.
    Output,
    /// There is no memory for a buffer.
    Memory,
}

/// Whether an output gets neither into the input nor into what a standard stream reads or prints.
fn is_apart(output: &Identity, input: &Identity, standard: &StandardFiles) -> bool
    ensures apart { IsTrue result ↔ IsApartFrom input.now standard.now output.now }
{
    !output.clashes(input) && !output.is_behind_any(standard)
}

/// Opens a file that is to be written, and refuses one that is the input or stands behind a standard stream. What it holds is left
/// as it is.
pub fn open_apart<S: System>(
    system: &S,
    place: Place<'_>,
    input: &Identity,
    standard: &StandardFiles,
) -> Result<Open<S::Output>, PairFault>
    ensures apart { IfOk result (λ output. IsApartFrom input.now standard.now output.identity) }
    ensures fault { IfErr result (λ e. e ≡ PairFault.Output) }
{
    match system.open_output(place) {
        Ok(open) if is_apart(&open.identity, input, standard) => Ok(open),
        _ => Err(PairFault::Output),
    }
}

/// Empties an output, which is neither the input nor behind a standard stream.
pub fn empty_apart<S: System>(
    system: &S,
    output: &Open<S::Output>,
    input: &Identity,
    standard: &StandardFiles,
) -> Result<(), PairFault>
    requires apart { IsApartFrom input.now standard.now output.now.identity }
    ensures fault { IfErr result (λ e. e ≡ PairFault.Output) }
{
    match system.empty(output) {
        Ok(()) => Ok(()),
        Err(_) => Err(PairFault::Output),
    }
}

/// Opens an input and then an output, which is emptied once it is known to get neither into the input nor into what a standard
/// stream reads or prints. Where that isn't so, it is refused, and what it holds is left as it is. An output that is standard
/// output may be a regular file, since nothing else is printed there.
fn open_pair<S: System>(
    system: &S,
    input: Place<'_>,
    output: Place<'_>,
) -> Result<Pair<S::Input, S::Output>, PairFault>
    ensures apart { IfOk result (λ pair. clashes pair.output.identity pair.input.identity ≡ false) }
{
    let standard = system.standard_files().in_use(output.is_standard());
    let Ok(input) = system.open_input(input) else {
        return Err(PairFault::Input);
    };
    let output = open_apart(system, output, &input.identity, &standard)?;
    empty_apart(system, &output, &input.identity, &standard)?;
    Ok(Pair { input, output })
}

/// Puts open files behind their buffers.
fn buffered<I: Read + Drop, O: Write + Drop>(
    alloc: Global,
    pair: Pair<I, O>,
) -> Result<BufferedPair<I, O>, AllocError>
    ensures source { IfOk result (λ files. ⟦<FromBuffered<I> as Source>⟧.has_failed files.source ≡ false) }
    ensures octets { IfOk result (λ files. ⟦<FromBuffered<I> as Source>⟧.left files.source ≡ I.remaining pair.input.file) }
    ensures sink { IfOk result (λ files. ⟦<ToWrite<BufWriter<O>> as Sink>⟧.has_failed files.sink ≡ false) }
{
    let Pair { input, output } = pair;
    let capacity = kept_back(input.identity.is_live());
    let source = buffered_source(alloc, input.file)?;
    let sink = buffered_sink(alloc, capacity, output.file)?;
    Ok(BufferedPair { source, sink })
}

/// Opens an input and then an output, each behind a buffer. The output is emptied once it is known to get neither into the input
/// nor into what a standard stream reads or prints, and is refused where that isn't so.
pub fn open_buffered<S: System>(
    system: &S,
    alloc: Global,
    input: Place<'_>,
    output: Place<'_>,
) -> Result<BufferedPair<S::Input, S::Output>, PairFault>
    ensures source { IfOk result (λ files. ⟦<FromBuffered<S::Input> as Source>⟧.has_failed files.source ≡ false) }
    ensures sink { IfOk result (λ files. ⟦<ToWrite<BufWriter<S::Output>> as Sink>⟧.has_failed files.sink ≡ false) }
{
    match buffered(alloc, open_pair(system, input, output)?) {
        Ok(files) => Ok(files),
        Err(_) => Err(PairFault::Memory),
    }
}

/// Whether an output would be sent to a terminal, where octets are nothing to look at.
pub fn is_sent_to_terminal<S: System>(system: &S, output: Place<'_>) -> bool
    ensures sent { result ≡ true → is_standard output.entry ≡ true }
{
    output.is_standard() && system.prints_to_terminal()
}
