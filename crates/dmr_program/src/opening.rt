//! The files of a run, opened and told apart.
ghost use Rattle.std.specs.Prelude.{◌≡◌, ◌↔◌, false, true, None, Some, IsTrue, IfOk, IfErr, IfSome};
ghost use Rattle.dmr_files.specs.Identity.{clashes};
ghost use Rattle.dmr_program.specs.Apart.{IsApart, clashes_if_any, is_any_live};
ghost use Rattle.dmr_program.specs.Summary.{is_sent_out};

use dmr_command::Places;
use dmr_files::{Identity, Open, Place, StandardFiles, System};
use dmr_repeater::Stream;
use std::io::Error;

/// The files of a run, open.
#[derive(Drop)]
pub struct Opened<I, O> {
    pub uplink: Open<I>,
    pub outgoing: Option<Open<I>>,
    pub downlink: Open<O>,
    pub received: Option<Open<O>>,
}

/// The files that no output may get into.
#[derive(Clone, Copy, Drop)]
pub struct Taken {
    pub uplink: Identity,
    pub outgoing: Option<Identity>,
    pub standard: StandardFiles,
}

/// A file that can't be opened or emptied, and why, where the system says so. It says nothing of one that is in use.
#[derive(Clone, Copy, Drop)]
pub(crate) struct Unopened {
    pub(crate) stream: Stream,
    pub(crate) reason: Option<Error>,
}

/// Which file an open one is, where there is one.
fn identity_if_any<F>(open: &Option<Open<F>>) -> Option<Identity> {
    match open {
        Some(open) => Some(open.identity),
        None => None,
    }
}

/// Whether more of an input may come while it is read.
pub(crate) fn are_live(uplink: &Identity, outgoing: &Option<Identity>) -> bool
    ensures live { result ≡ is_any_live uplink.now outgoing.now }
{
    match outgoing {
        Some(outgoing) => uplink.is_live() || outgoing.is_live(),
        None => uplink.is_live(),
    }
}

/// An open file, where there is one.
pub(crate) fn file_if_any<F>(opened: Option<Open<F>>) -> Option<F>
    ensures none { opened ≡ None → result ≡ None }
    ensures some { (given : Open F) → opened ≡ Some given → result ≡ Some given.file }
{
    match opened {
        Some(opened) => Some(opened.file),
        None => None,
    }
}

impl<I, O> Opened<I, O> {
    /// Whether more of an input may come while it is read, so that what is decided is written at once.
    pub(crate) fn is_live(&self) -> bool {
        are_live(&self.uplink.identity, &identity_if_any(&self.outgoing))
    }
}

/// Opens a file that is to be read.
fn open_input<S: System>(
    system: &S,
    place: Place<'_>,
    stream: Stream,
) -> Result<Open<S::Input>, Unopened>
    ensures named { IfErr result (λ e. e.stream ≡ stream) }
{
    match system.open_input(place) {
        Ok(open) => Ok(open),
        Err(error) => Err(Unopened {
            stream,
            reason: Some(error),
        }),
    }
}

/// Opens a file that is to be read, where there is one.
fn open_input_if_any<S: System>(
    system: &S,
    place: Option<Place<'_>>,
    stream: Stream,
) -> Result<Option<Open<S::Input>>, Unopened>
    ensures none { place.entry ≡ None → IfOk result (λ found. found ≡ None) }
    ensures named { IfErr result (λ e. e.stream ≡ stream) }
{
    match place {
        Some(place) => Ok(Some(open_input(system, place, stream)?)),
        None => Ok(None),
    }
}

/// Whether an output would get into a file, where there is one.
fn clashes_if_any(output: &Identity, other: &Option<Identity>) -> bool
    ensures clash { result ≡ clashes_if_any output.now other.now }
{
    match other {
        Some(other) => output.clashes(other),
        None => false,
    }
}

/// Whether an output would get into an input, or into what a standard stream reads or prints.
fn is_apart(output: &Identity, taken: &Taken) -> bool
    ensures apart { IsTrue result ↔ IsApart taken.now output.now }
{
    !output.clashes(&taken.uplink)
        && !clashes_if_any(output, &taken.outgoing)
        && !output.is_behind_any(&taken.standard)
}

/// Opens a file that is to be written, and refuses one that is in use.
fn open_output<S: System>(
    system: &S,
    place: Place<'_>,
    stream: Stream,
    taken: &Taken,
) -> Result<Open<S::Output>, Unopened>
    ensures apart { IfOk result (λ output. IsApart taken.now output.identity) }
    ensures named { IfErr result (λ e. e.stream ≡ stream) }
{
    match system.open_output(place) {
        Ok(open) if is_apart(&open.identity, taken) => Ok(open),
        Ok(_) => Err(Unopened {
            stream,
            reason: None,
        }),
        Err(error) => Err(Unopened {
            stream,
            reason: Some(error),
        }),
    }
}

/// Opens a file that is to be written, where there is one, and refuses one that is in use.
fn open_output_if_any<S: System>(
    system: &S,
    place: Option<Place<'_>>,
    stream: Stream,
    taken: &Taken,
) -> Result<Option<Open<S::Output>>, Unopened>
    ensures apart { IfOk result (λ output. IfSome output (λ file. IsApart taken.now file.identity)) }
    ensures named { IfErr result (λ e. e.stream ≡ stream) }
{
    match place {
        Some(place) => Ok(Some(open_output(system, place, stream, taken)?)),
        None => Ok(None),
    }
}

/// Whether the received file, where there is one, would get into the downlink.
fn gets_into<F>(received: &Option<Open<F>>, downlink: &Identity) -> bool
    ensures apart { result ≡ false → IfSome received.now (λ file. clashes file.identity downlink.now ≡ false) }
{
    match received {
        Some(received) => received.identity.clashes(downlink),
        None => false,
    }
}

/// Empties an output, which is no other file of the run and none behind a standard stream.
fn empty_output<S: System>(
    system: &S,
    output: &Open<S::Output>,
    stream: Stream,
    taken: &Taken,
) -> Result<(), Unopened>
    requires apart { IsApart taken.now output.now.identity }
    ensures named { IfErr result (λ e. e.stream ≡ stream) }
{
    match system.empty(output) {
        Ok(()) => Ok(()),
        Err(error) => Err(Unopened {
            stream,
            reason: Some(error),
        }),
    }
}

/// Empties the outputs, which are no other file of the run and none behind a standard stream.
fn empty_outputs<S: System>(
    system: &S,
    downlink: &Open<S::Output>,
    received: &Option<Open<S::Output>>,
    taken: &Taken,
) -> Result<(), Unopened>
    requires downlink { IsApart taken.now downlink.now.identity }
    requires received { IfSome received.now (λ file. IsApart taken.now file.identity) }
    requires outputs { IfSome received.now (λ file. clashes file.identity downlink.now.identity ≡ false) }
{
    empty_output(system, downlink, Stream::Downlink, taken)?;
    match received {
        Some(received) => empty_output(system, received, Stream::Received, taken),
        None => Ok(()),
    }
}

/// Opens the files in their order, and empties the outputs once it is known that they are apart. Answers the first that can't be
/// opened, or may not be written.
pub(crate) fn open_files<S: System>(
    system: &S,
    places: &Places<'_>,
) -> Result<Opened<S::Input, S::Output>, Unopened>
    // An outgoing list that is left out isn't opened.
    ensures unlisted { places.now.outgoing ≡ None → IfOk result (λ files. files.outgoing ≡ None) }
{
    let standard = system.standard_files().in_use(places.take_output());
    let uplink = open_input(system, places.uplink, Stream::Uplink)?;
    let outgoing = open_input_if_any(system, places.outgoing, Stream::Outgoing)?;
    let taken = Taken {
        uplink: uplink.identity,
        outgoing: identity_if_any(&outgoing),
        standard,
    };
    let downlink = open_output(system, places.downlink, Stream::Downlink, &taken)?;
    let received = open_output_if_any(system, places.received, Stream::Received, &taken)?;
    if gets_into(&received, &downlink.identity) {
        return Err(Unopened {
            stream: Stream::Received,
            reason: None,
        });
    }
    empty_outputs(system, &downlink, &received, &taken)?;
    Ok(Opened {
        uplink,
        outgoing,
        downlink,
        received,
    })
}

/// The output that would be sent to a terminal, where one would. Octets are nothing to look at.
pub(crate) fn sent_to_terminal<S: System>(system: &S, places: &Places<'_>) -> Option<Stream>
    ensures sent { IfSome result (λ stream. is_sent_out places.now stream ≡ true) }
{
    if !places.take_output() || !system.prints_to_terminal() {
        return None;
    }
    Some(if places.downlink.is_standard() {
        Stream::Downlink
    } else {
        Stream::Received
    })
}
