//! The header of a call: heard, decided by its track, and sent by its line and the channel.
ghost use Rattle.dmr_hearing.specs.Fit.{IsFitHeard};

use dmr_bits::Bits;
use dmr_burst::{Burst, Emb, data_type, read_info};
use dmr_link::FullLc;
use dmr_slot::{Channel, SlotLine, SlotOut};
use dmr_test_values::{CALL_HEADER, CALL_TERMINATOR, IDLE_BURST, PRINTED_VOICE_BURST};
use dmr_voice::{DataBurst, Heard, Role, VoiceOut, VoiceTrack, hear};
use std::alloc::AllocError;
use std::test::Fail;

/// A call to talk group 1 from radio 2, no option set.
const CALL: FullLc = FullLc {
    protect: false,
    reserved: false,
    flco: 0,
    fid: 0,
    body: [0, 0, 0, 1, 0, 0, 2],
};

/// What a slot is heard as by a repeater of colour code 1.
fn heard(slot: Option<&[u8; 33]>) -> Heard
    ensures fit { IsFitHeard result }
{
    hear(slot, 1)
}

/// A data burst of colour code 1 with the information of a burst.
fn data(kind: u8, burst: &[u8; 33]) -> Burst {
    Burst::Data {
        colour: 1,
        kind,
        info: read_info(burst),
    }
}

#[test]
fn header_of_a_call(rt: HostRuntime) {
    let header = heard(Some(&CALL_HEADER));
    let data_burst = Some(DataBurst {
        kind: data_type::VOICE_LC_HEADER,
        information: read_info(&CALL_HEADER),
        link_control: Some(CALL),
    });
    assert!(rt; header.data_burst == data_burst);
    let silence = heard(None);
    assert!(rt; silence.data_burst == None && !silence.voice && silence.emb == None);
    let mut track = VoiceTrack::new(1);
    let window = [header, silence, silence, silence, silence, silence];
    let out = track.step(&[silence; 6]);
    assert!(rt; out == VoiceOut::Nothing);
    let out = track.step(&window);
    let repeated = VoiceOut::Repeat {
        burst: data(data_type::VOICE_LC_HEADER, &CALL_HEADER),
        role: Role::Call(Some(CALL)),
    };
    assert!(rt; out == repeated);
}

// The four octets AB, CD, EF and 01 stand at its embedded field, and A5 and 5A at both ends of its vocoder bits.
#[test]
fn fields_of_a_voice_burst(rt: HostRuntime) {
    let mut octets = PRINTED_VOICE_BURST;
    (octets[0], octets[32]) = (0xA5, 0x5A);
    (octets[14], octets[15], octets[16]) = (0x3A, 0xBC, 0xDE);
    (octets[17], octets[18]) = (0xF0, 0x19);
    let voice = heard(Some(&octets));
    let emb = Emb {
        colour: 1,
        pi: false,
        lcss: 1,
    };
    assert!(rt; voice.emb == Some(emb) && voice.data_burst == None && !voice.voice);
    assert_eq!(rt; voice.embedded, 0xABCD_EF01);
    let ends = Bits::<216>::zero()
        .with_field(0, 8, 0xA5)
        .with_field(208, 8, 0x5A);
    assert!(rt; voice.vocoder == ends);
}

/// What a line gives that repeats nothing and that no call holds.
const FREE: SlotOut = SlotOut {
    repeated: None,
    hang: None,
    lc: None,
};

// It is heard in frame 0 of the uplink and repeated in frame 6 of the downlink. A terminator holds the slot behind it.
#[test]
fn header_in_its_line(rt: HostRuntime) -> Result<(), Fail> {
    let made: Result<SlotLine, AllocError> = SlotLine::new(rt.alloc(), 1, 3);
    let mut line = made?;
    for frame in 0..6u8 {
        let slot = if frame == 1 { Some(CALL_HEADER) } else { None };
        let out = line.push(slot.as_ref());
        assert!(rt; out == FREE, "frame {frame}");
    }
    let repeated = SlotOut {
        repeated: Some(data(data_type::VOICE_LC_HEADER, &CALL_HEADER)),
        hang: None,
        lc: Some(CALL),
    };
    let out = line.push(None);
    assert!(rt; out == repeated);
    let hang = SlotOut {
        repeated: None,
        hang: Some(data(data_type::TERMINATOR_WITH_LC, &CALL_TERMINATOR)),
        lc: Some(CALL),
    };
    let out = line.push(None);
    assert!(rt; out == hang);
    Ok(())
}

// The other slot idles.
#[test]
fn header_on_the_channel(rt: HostRuntime) {
    let header = Some(data(data_type::VOICE_LC_HEADER, &CALL_HEADER));
    let repeated = SlotOut {
        repeated: header,
        hang: None,
        lc: Some(CALL),
    };
    let (slots, gate) = ([repeated, FREE], [None, None]);
    let mut channel = Channel::new(1, 5);
    let [first, second] = channel.frame(&slots, &gate);
    let idle = Some(data(data_type::IDLE, &IDLE_BURST));
    assert!(rt; first == header && second == idle);
}

// A call to talk group 1 in slot 1 is announced, and nothing where neither slot has a call.
#[test]
fn calls_that_are_announced(rt: HostRuntime) {
    assert!(rt; Channel::message(Some(&CALL), None) == (1, 0x80_0700));
    assert!(rt; Channel::message(None, None) == (0, 0));
}
