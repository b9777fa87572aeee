//! The stream of a slot.
ghost use Rattle.std.specs.Prelude.{◌≡◌, ◌+◌, ◌-◌, ◌<◌, ◌≤◌, ◌^◌, true, Some};
ghost use Rattle.dmr_log.specs.Transmissions.{IsStep, is_burst};
ghost use Rattle.dmr_log.specs.Checks.{none_checked};
ghost use Rattle.dmr_log.specs.declared.transmission.Ended as declared;
ghost use Rattle.std.specs.Prelude as prelude;
ghost use Rattle.dmr_dmrd_export.specs.Streams as spec;

use crate::addresses::Addresses;
use crate::burst::RepeatedBurst;
use crate::packet::BurstPacket;
use dmr_link::FullLc;
use dmr_log::{CallStage, Checks, Repeated, Subject, Transmission, go_on};
use dmr_recording::Place;

/// What is kept of a slot: the transmission that is open, and the stream that it is.
#[derive(Clone, Copy, Drop)]
pub(crate) struct SlotStream {
    /// The transmission that is open.
    pub(crate) current: Option<Transmission>,
    /// The name of the last stream, or 0.
    pub(crate) name: u32,
    /// Its addresses.
    pub(crate) addresses: Addresses,
}

/// The link control of the call of which headers alone came so far.
fn headers_of(current: &Option<Transmission>) -> Option<FullLc>
    ensures value { result ≡ spec.headers_of current.now }
{
    match current {
        Some(
            Transmission {
                subject: Subject::Call(call),
                ..
            },
        ) if matches!(call.stage, CallStage::Headers) => call.link_control,
        _ => None,
    }
}

/// Goes on to the transmission behind a frame that repeats a burst, which is of it.
fn go_on_with(current: &mut Option<Transmission>, frame: u32, told: &Repeated) -> Transmission
    requires burst { is_burst told.now ≡ true }
    ensures step { (ended : prelude.Option declared.Ended) × IsStep current.old frame told.now none_checked ended current.new }
    ensures current { current.new ≡ Some result }
{
    let _ended = go_on(current, frame, told, Checks::default());
    match *current {
        Some(transmission) => transmission,
        None => unreachable!(),
    }
}

impl SlotStream {
    /// Nothing came yet.
    pub(crate) fn new() -> SlotStream
        ensures value { result ≡ spec.no_stream }
    {
        SlotStream {
            current: None,
            name: 0,
            addresses: Addresses::UNKNOWN,
        }
    }

    /// No burst is repeated in the next frame, which is this place.
    fn pass(&mut self, place: Place)
        ensures passes { spec.IsSlotSilent self.old place self.new }
    {
        let _ended = go_on(
            &mut self.current,
            place.frame,
            &Repeated::Nothing,
            Checks::default(),
        );
    }

    /// A burst is repeated in the next frame, which is this place. Its packet is of the stream that goes on, or of a new one with
    /// the next name.
    fn send(
        &mut self,
        place: Place,
        names: &mut u32,
        burst: &RepeatedBurst,
        carried: Option<FullLc>,
    ) -> BurstPacket
        requires room { names.old < 2 ^ 32 - 1 }
        ensures sends { spec.IsBurstSent self.old names.old place burst.now carried result self.new names.new }
    {
        let told = burst.told(headers_of(&self.current));
        let Transmission { span, subject } = go_on_with(&mut self.current, place.frame, &told);
        if span.first == place.frame {
            *names += 1;
            self.name = *names;
            self.addresses = Addresses::of_first(&subject, carried);
        }
        BurstPacket {
            place,
            number: (place.frame.saturating_sub(span.first) % 256) as u8,
            addresses: self.addresses,
            kind: burst.kind(),
            stream: self.name,
            burst: burst.octets,
        }
    }

    /// The next frame, which is this place: what is repeated in it, and what the four frames behind it carry.
    pub(crate) fn take(
        &mut self,
        place: Place,
        names: &mut u32,
        burst: &Option<RepeatedBurst>,
        carried: Option<FullLc>,
    ) -> Option<BurstPacket>
        requires room { names.old < 2 ^ 32 - 1 }
        ensures goes_on { spec.IsStreamed self.old names.old place burst.now carried result self.new names.new }
    {
        match burst {
            None => {
                self.pass(place);
                None
            }
            Some(burst) => Some(self.send(place, names, burst, carried)),
        }
    }
}
