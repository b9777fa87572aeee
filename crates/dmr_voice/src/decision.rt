//! What the rules decide of a place, in few words.
ghost use Rattle.std.specs.Prelude.{◌≡◌, ◌<◌, None};
ghost use Rattle.dmr_voice.specs.Bursts.{IsSaid, repeated_out};
ghost use Rattle.dmr_voice.specs.Decisions.{stands_for};
ghost use Rattle.dmr_voice.specs.Fit.{IsFitTrack};
ghost use Rattle.dmr_voice.specs.declared.said.Role.TheVariants as role;

use crate::place::Place;
use crate::said::{OwnBits, Role, repeat_data, repeat_place};
use crate::superframe::Carrier;
use crate::track::Track;
use dmr_bits::Bits;
use dmr_burst::{Burst, data_type};
use dmr_hearing::Heard;

/// What is repeated for a place. The bits that go out stay where they were heard, and what is known of the call stays in the track
/// behind the place, so that they are moved once.
#[derive(Clone, Copy)]
pub enum Decision {
    /// Nothing.
    Nothing,
    /// The data burst that was heard, with this role.
    Data(Role),
    /// The header of a call that is still to come, once more.
    HeaderAgain,
    /// This place of the call, as it was heard.
    AsHeard(Place),
    /// This place of the call, filled.
    Filled(Place),
}

impl Decision {
    /// Gives the burst of this colour code that is repeated, and answers the role of that. This was heard, and the track stands so
    /// behind it.
    pub(crate) fn repeat(
        self,
        here: &Heard,
        track: &Track,
        colour: u8,
        carrier: &mut Carrier,
        repeated: &mut Option<Burst>,
    ) -> Role
        requires fit { IsFitTrack track.now }
        ensures said { IsSaid colour (stands_for self here.now track.now) (repeated_out repeated.new result) }
        ensures other { repeated.new ≡ None → result ≡ role.Other }
    {
        match (self, track) {
            (Decision::Data(role), _) => {
                if let Some(data_burst) = &here.data_burst {
                    repeat_data(colour, data_burst.kind, &data_burst.information, repeated);
                    return role;
                }
            }
            (Decision::HeaderAgain, Track::Gap(header)) => {
                repeat_data(
                    colour,
                    data_type::VOICE_LC_HEADER,
                    &header.information,
                    repeated,
                );
                return Role::Call(header.link_control);
            }
            (
                Decision::AsHeard(place),
                Track::InCall {
                    call,
                    superframe,
                    ..
                },
            ) => {
                let own = OwnBits {
                    pi: here.pi(),
                    embedded: here.embedded,
                    vocoder: &here.vocoder,
                };
                repeat_place(colour, place, *superframe, own, carrier, repeated);
                return Role::Call(*call);
            }
            (
                Decision::Filled(place),
                Track::InCall {
                    call,
                    superframe,
                    ..
                },
            ) => {
                let zeros = Bits::<216>::zero();
                let own = OwnBits {
                    pi: false,
                    embedded: 0,
                    vocoder: &zeros,
                };
                repeat_place(colour, place, *superframe, own, carrier, repeated);
                return Role::Call(*call);
            }
            _ => {}
        }
        *repeated = None;
        Role::Other
    }
}
