//! The outputs of `make`, opened and told apart once its script was read.
ghost use Rattle.std.specs.Prelude.{◌≡◌, false, is_some, IfOk, IfErr, IfSome};
ghost use Rattle.dmr_files.specs.Identity.{clashes};
ghost use Rattle.dmr_files.specs.Pair.{IsApartFrom};

use crate::make_places::MakePlaces;
use dmr_files::{
    Identity, Open, Place, StandardFiles, System, buffered_sink, empty_apart, kept_back, open_apart,
};
use dmr_record::{Sink, ToWrite};
use std::alloc::{AllocError, Global};
use std::io::{BufWriter, Write};

/// Why the outputs can't be used.
#[derive(Clone, Copy)]
pub(crate) enum OutputsFault<'a> {
    /// The one at this place can't be opened or emptied, is the script or the other output, or stands behind a standard stream.
    Unopened(Place<'a>),
    /// There is no memory for a buffer.
    Memory,
}

/// An output, open, and where it is.
#[derive(Drop)]
struct Output<'a, O> {
    place: Place<'a>,
    file: Open<O>,
}

/// An output behind a buffer, and where it is.
#[derive(Drop)]
pub(crate) struct BufferedOutput<'a, O: Write + Drop> {
    pub(crate) place: Place<'a>,
    pub(crate) sink: ToWrite<BufWriter<O>>,
}

/// The recording, and the outgoing list where there is one.
#[derive(Drop)]
pub(crate) struct BufferedOutputs<'a, O: Write + Drop> {
    pub(crate) uplink: BufferedOutput<'a, O>,
    pub(crate) outgoing: Option<BufferedOutput<'a, O>>,
}

/// Opens an output, and refuses one that is the script or stands behind a standard stream.
fn open_output<'a, S: System>(
    system: &S,
    place: Place<'a>,
    script: &Identity,
    standard: &StandardFiles,
) -> Result<Output<'a, S::Output>, OutputsFault<'a>>
    ensures apart { IfOk result (λ output. IsApartFrom script.now standard.now output.file.identity) }
    ensures fault { IfErr result (λ e. e ≡ OutputsFault.Unopened place.entry) }
{
    match open_apart(system, place, script, standard) {
        Ok(file) => Ok(Output { place, file }),
        Err(_) => Err(OutputsFault::Unopened(place)),
    }
}

/// Opens the outgoing list, where there is one, and refuses one that is the recording, too.
fn open_outgoing<'a, S: System>(
    system: &S,
    place: Option<Place<'a>>,
    uplink: &Identity,
    script: &Identity,
    standard: &StandardFiles,
) -> Result<Option<Output<'a, S::Output>>, OutputsFault<'a>>
    ensures apart { IfOk result (λ list. IfSome list (λ output. IsApartFrom script.now standard.now output.file.identity)) }
    ensures outputs { IfOk result (λ list. IfSome list (λ output. clashes output.file.identity uplink.now ≡ false)) }
    ensures given { IfOk result (λ list. is_some list ≡ is_some place.entry) }
{
    let Some(place) = place else {
        return Ok(None);
    };
    let output = open_output(system, place, script, standard)?;
    if output.file.identity.clashes(uplink) {
        return Err(OutputsFault::Unopened(place));
    }
    Ok(Some(output))
}

/// Empties an output, which is neither the script nor behind a standard stream.
fn empty_output<'a, S: System>(
    system: &S,
    output: &Output<'a, S::Output>,
    script: &Identity,
    standard: &StandardFiles,
) -> Result<(), OutputsFault<'a>>
    requires apart { IsApartFrom script.now standard.now output.now.file.identity }
    ensures fault { IfErr result (λ e. e ≡ OutputsFault.Unopened output.now.place) }
{
    match empty_apart(system, &output.file, script, standard) {
        Ok(()) => Ok(()),
        Err(_) => Err(OutputsFault::Unopened(output.place)),
    }
}

/// Empties the outgoing list, where there is one. It is no other file of the command, and none behind a standard stream.
fn empty_outgoing<'a, S: System>(
    system: &S,
    outgoing: &Option<Output<'a, S::Output>>,
    uplink: &Identity,
    script: &Identity,
    standard: &StandardFiles,
) -> Result<(), OutputsFault<'a>>
    requires apart { IfSome outgoing.now (λ output. IsApartFrom script.now standard.now output.file.identity) }
    requires outputs { IfSome outgoing.now (λ output. clashes output.file.identity uplink.now ≡ false) }
{
    match outgoing {
        Some(output) => empty_output(system, output, script, standard),
        None => Ok(()),
    }
}

/// Puts an output behind a buffer. All that it gets is decided by then, so that nobody waits for a record.
fn buffered<'a, O: Write + Drop>(
    alloc: Global,
    output: Output<'a, O>,
) -> Result<BufferedOutput<'a, O>, AllocError>
    ensures well { IfOk result (λ file. ⟦<ToWrite<BufWriter<O>> as Sink>⟧.has_failed file.sink ≡ false) }
{
    let Output { place, file } = output;
    let sink = buffered_sink(alloc, kept_back(false), file.file)?;
    Ok(BufferedOutput { place, sink })
}

/// Puts the outgoing list behind a buffer, where there is one.
fn buffered_outgoing<'a, O: Write + Drop>(
    alloc: Global,
    outgoing: Option<Output<'a, O>>,
) -> Result<Option<BufferedOutput<'a, O>>, AllocError>
    ensures well { IfOk result (λ list. IfSome list (λ file. ⟦<ToWrite<BufWriter<O>> as Sink>⟧.has_failed file.sink ≡ false)) }
    ensures given { IfOk result (λ list. is_some list ≡ is_some outgoing.entry) }
{
    match outgoing {
        Some(output) => Ok(Some(buffered(alloc, output)?)),
        None => Ok(None),
    }
}

/// Puts both outputs behind buffers.
fn buffered_outputs<'a, O: Write + Drop>(
    alloc: Global,
    uplink: Output<'a, O>,
    outgoing: Option<Output<'a, O>>,
) -> Result<BufferedOutputs<'a, O>, AllocError>
    ensures uplink { IfOk result (λ files. ⟦<ToWrite<BufWriter<O>> as Sink>⟧.has_failed files.uplink.sink ≡ false) }
    ensures outgoing { IfOk result (λ files. IfSome files.outgoing
        (λ file. ⟦<ToWrite<BufWriter<O>> as Sink>⟧.has_failed file.sink ≡ false)) }
    ensures given { IfOk result (λ files. is_some files.outgoing ≡ is_some outgoing.entry) }
{
    Ok(BufferedOutputs {
        uplink: buffered(alloc, uplink)?,
        outgoing: buffered_outgoing(alloc, outgoing)?,
    })
}

/// Opens the outputs, the recording first, each behind a buffer. They are emptied once it is known that they get neither into the
/// script, nor into one another, nor into what a standard stream reads or prints. Where one does it is refused, and what both hold
/// is left as it is. An output that is standard output may be a regular file, since nothing else is printed there.
pub(crate) fn open_outputs<'a, S: System>(
    system: &S,
    alloc: Global,
    places: &MakePlaces<'a>,
    script: &Identity,
) -> Result<BufferedOutputs<'a, S::Output>, OutputsFault<'a>>
    ensures uplink { IfOk result (λ files. ⟦<ToWrite<BufWriter<S::Output>> as Sink>⟧.has_failed files.uplink.sink ≡ false) }
    ensures outgoing { IfOk result (λ files. IfSome files.outgoing
        (λ file. ⟦<ToWrite<BufWriter<S::Output>> as Sink>⟧.has_failed file.sink ≡ false)) }
    // There is a list where a place is given for one.
    ensures given { IfOk result (λ files. is_some files.outgoing ≡ is_some places.now.outgoing) }
{
    let standard = system.standard_files().in_use(places.is_any_to_output());
    let uplink = open_output(system, places.uplink, script, &standard)?;
    let identity = uplink.file.identity;
    let outgoing = open_outgoing(system, places.outgoing, &identity, script, &standard)?;
    empty_output(system, &uplink, script, &standard)?;
    empty_outgoing(system, &outgoing, &identity, script, &standard)?;
    match buffered_outputs(alloc, uplink, outgoing) {
        Ok(files) => Ok(files),
        Err(_) => Err(OutputsFault::Memory),
    }
}
