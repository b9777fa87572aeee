//! Worked recordings of slots, and frames of the channel. All bursts are of colour code 1, unless said.
ghost use Rattle.std.specs.Prelude.{◌<◌, IfSome};
ghost use Rattle.dmr_burst.specs.Burst.{IsBurst};

use dmr_bits::Bits;
use dmr_bptc::bptc_encode;
use dmr_burst::{Burst, Emb, Side, data_type, encode_burst, lcss};
use dmr_link::{FullLc, LcUse, lc_info};
use dmr_slot::{Channel, SlotLine, SlotOut};
use dmr_test_values::{CALL_FIELDS, IDLE_BLOCK, IDLE_BURST, TERMINATOR_BLOCK};
use std::alloc::{AllocError, Global};
use std::test::Fail;

/// A call to talk group 1 from radio 2, no option set.
const CALL: FullLc = FullLc {
    protect: false,
    reserved: false,
    flco: 0,
    fid: 0,
    body: [0, 0, 0, 1, 0, 0, 2],
};

/// A data burst.
fn data(colour: u8, kind: u8, message: &Bits<96>) -> Burst
    requires colour { colour < 16 }
    requires kind { kind < 16 }
    ensures fit { IsBurst result }
{
    Burst::Data {
        colour,
        kind,
        info: bptc_encode(message),
    }
}

/// A voice burst after the first.
fn voice(colour: u8, lcss: u8, embedded: u32, vocoder: Bits<216>) -> Burst
    requires colour { colour < 16 }
    requires lcss { lcss < 4 }
    ensures fit { IsBurst result }
{
    Burst::Voice {
        emb: Emb {
            colour,
            pi: false,
            lcss,
        },
        embedded,
        vocoder,
    }
}

/// The burst of a letter. `H` and `P` are the headers of the call. `A` to `F` are its places, and `a` to `f` the same with all
/// vocoder bits zero. `K` is a control signalling block of ten zero octets, and any other letter is nothing.
fn burst_of(letter: u8, colour: u8) -> Option<Burst>
    requires colour { colour < 16 }
    ensures fit { IfSome result IsBurst }
{
    let vocoder = if letter.is_ascii_lowercase() {
        Bits::<216>::zero()
    } else {
        Bits::<216>::zero().with_field(100, 16, 0x0505)
    };
    match letter {
        b'H' => Some(data(
            colour,
            data_type::VOICE_LC_HEADER,
            &lc_info(&CALL, LcUse::Header),
        )),
        b'P' => Some(data(colour, data_type::PI_HEADER, &Bits::<96>::zero())),
        b'A' | b'a' => Some(Burst::VoiceSync { vocoder }),
        b'B' | b'b' => Some(voice(colour, lcss::FIRST_FRAGMENT, CALL_FIELDS[0], vocoder)),
        b'C' | b'c' => Some(voice(colour, lcss::CONTINUATION_FRAGMENT, CALL_FIELDS[1], vocoder)),
        b'D' | b'd' => Some(voice(colour, lcss::CONTINUATION_FRAGMENT, CALL_FIELDS[2], vocoder)),
        b'E' | b'e' => Some(voice(colour, lcss::LAST_FRAGMENT, CALL_FIELDS[3], vocoder)),
        b'F' | b'f' => Some(voice(colour, lcss::SINGLE_FRAGMENT, 0, vocoder)),
        b'K' => Some(data(
            colour,
            data_type::CSBK,
            &Bits::<96>::zero().with_field(80, 16, 0x5A5A),
        )),
        _ => None,
    }
}

/// What a mobile station sends for a letter.
fn sent(letter: u8, colour: u8) -> Option<[u8; 33]>
    requires colour { colour < 16 }
{
    match burst_of(letter, colour) {
        Some(burst) => Some(encode_burst(&burst, Side::Ms)),
        None => None,
    }
}

/// The letter of a burst that goes out: `T` for the call's terminator and `I` for idle, `.` for nothing, and `?` for a burst
/// that has no letter.
fn letter_of(burst: Option<&Burst>) -> u8 {
    let Some(burst) = burst else {
        return b'.';
    };
    for letter in b"HPABCDEFabcdefK" {
        if burst_of(*letter, 1).as_ref() == Some(burst) {
            return *letter;
        }
    }
    let idle = Bits::<96>::from_octets(&IDLE_BLOCK);
    if *burst
        == data(
            1,
            data_type::TERMINATOR_WITH_LC,
            &Bits::<96>::from_octets(&TERMINATOR_BLOCK),
        )
    {
        b'T'
    } else if *burst == data(1, data_type::IDLE, &idle) {
        b'I'
    } else {
        b'?'
    }
}

/// A repeater without a gateway: the lines of both slots, and the channel.
#[derive(Drop)]
struct Repeater {
    first: SlotLine,
    second: SlotLine,
    channel: Channel,
}

impl Repeater {
    /// With a call hang of three frames and a channel hang of five.
    fn new(alloc: Global) -> Result<Repeater, AllocError> {
        Ok(Repeater {
            first: SlotLine::new(alloc, 1, 3)?,
            second: SlotLine::new(alloc, 1, 3)?,
            channel: Channel::new(1, 5),
        })
    }

    /// What goes out in both slots of a frame, in letters, when these letters were sent in the frame before it, in the second
    /// slot by another colour code.
    fn frame(&mut self, first: u8, second: u8) -> (u8, u8) {
        let first = self.first.push(sent(first, 1).as_ref());
        let second = self.second.push(sent(second, 2).as_ref());
        let (slots, gate) = ([first, second], [None, None]);
        let frame = self.channel.frame(&slots, &gate);
        (letter_of(frame[0].as_ref()), letter_of(frame[1].as_ref()))
    }
}

/// What goes out in a recording, in letters.
#[derive(Drop)]
struct Letters {
    first: Vec<u8>,
    second: Vec<u8>,
}

impl Letters {
    /// Adds what goes out in a frame, when these letters were sent in the frame before it.
    fn add(&mut self, repeater: &mut Repeater, first: u8, second: u8) -> Result<(), AllocError> {
        let (first, second) = repeater.frame(first, second);
        self.first.push(first)?;
        self.second.push(second)?;
        Ok(())
    }

    /// Adds what goes out in so many frames, when nothing was sent.
    fn add_silence(&mut self, repeater: &mut Repeater, frames: u8) -> Result<(), AllocError> {
        for _past in 0..frames {
            self.add(repeater, b'.', b'.')?;
        }
        Ok(())
    }
}

/// The downlink of a recording. What is sent in slot 2 is of colour code 2.
fn downlink(alloc: Global, first: &[u8], second: &[u8]) -> Result<Letters, AllocError> {
    let mut repeater = Repeater::new(alloc)?;
    let mut out = Letters {
        first: Vec::new(alloc),
        second: Vec::new(alloc),
    };
    out.add_silence(&mut repeater, 1)?;
    for (a, b) in first.iter().zip(second) {
        out.add(&mut repeater, *a, *b)?;
    }
    out.add_silence(&mut repeater, 5)?;
    Ok(out)
}

/// The same where slot 2 is silent.
fn downlink_of_one(alloc: Global, first: &[u8]) -> Result<Letters, AllocError> {
    let silence = vec![in alloc; b'.'; first.len()]?;
    downlink(alloc, first, &silence)
}

#[test]
fn call_and_hang(rt: HostRuntime) -> Result<(), Fail> {
    let out = downlink_of_one(rt.alloc(), b"HABCDEF.............")?;
    assert_eq!(rt;
        out.first.as_slice(),
        b"......HABCDEFTTTII........".as_slice()
    );
    assert_eq!(rt;
        out.second.as_slice(),
        b"......IIIIIIIIIIII........".as_slice()
    );
    Ok(())
}

/// A burst of the call as it is received: with two wrong bits in its EMB, where it has one, and in C with one in each row of
/// the embedded word besides.
fn damaged(letter: u8, burst: &[u8; 33]) -> [u8; 33] {
    let mut bits = Bits::<264>::from_octets(burst);
    if matches!(letter, b'B'..=b'F') {
        for place in [108, 155] {
            bits.set(place, !bits.get(place));
        }
    }
    if letter == b'C' {
        for place in 116..124usize {
            bits.set(place, !bits.get(place));
        }
    }
    bits.octets()
}

#[test]
fn damaged_call(rt: HostRuntime) -> Result<(), Fail> {
    let mut line = SlotLine::new(rt.alloc(), 1, 3)?;
    let mut out = Vec::new(rt.alloc());
    for letter in b".HABCDEF............" {
        let burst = match sent(*letter, 1) {
            Some(burst) => Some(damaged(*letter, &burst)),
            None => None,
        };
        let slot = line.push(burst.as_ref());
        out.push(letter_of(slot.repeated.or(slot.hang).as_ref()))?;
    }
    assert_eq!(rt; out.as_slice(), b"......HABCDEFTTT....".as_slice());
    Ok(())
}

#[test]
fn lost_call(rt: HostRuntime) -> Result<(), Fail> {
    // An A in the place of an F.
    let out = downlink_of_one(rt.alloc(), b"HABCDEF.....ABCDEF........")?;
    assert_eq!(rt;
        out.first.as_slice(),
        b"......HABCDEFTTTIIABCDEFTTTII...".as_slice()
    );
    Ok(())
}

#[test]
fn filled_places(rt: HostRuntime) -> Result<(), Fail> {
    let out = downlink_of_one(rt.alloc(), b"HABCDEF.....F.......")?;
    assert_eq!(rt;
        out.first.as_slice(),
        b"......HABCDEFabcdeFTTTII..".as_slice()
    );
    Ok(())
}

#[test]
fn privacy_header(rt: HostRuntime) -> Result<(), Fail> {
    let out = downlink_of_one(rt.alloc(), b"HP......")?;
    assert_eq!(rt; out.first.as_slice(), b"......HPTTTII.".as_slice());
    assert_eq!(rt; out.second.as_slice(), b"......IIIIIII.".as_slice());
    Ok(())
}

#[test]
fn two_headers(rt: HostRuntime) -> Result<(), Fail> {
    let out = downlink_of_one(rt.alloc(), b"H.HA")?;
    assert_eq!(rt; out.first.as_slice(), b"......HTHA".as_slice());
    Ok(())
}

#[test]
fn other_colour(rt: HostRuntime) -> Result<(), Fail> {
    let call = b"HABCDEF.............";
    let slots: [&[u8; 20]; 2] = [b"K...................", b"HABCDEF............."];
    for other in slots {
        let out = downlink(rt.alloc(), call, other)?;
        assert_eq!(rt;
            out.first.as_slice(),
            b"......HABCDEFTTTII........".as_slice()
        );
        assert_eq!(rt;
            out.second.as_slice(),
            b"......IIIIIIIIIIII........".as_slice()
        );
    }
    Ok(())
}

#[test]
fn hang_of_a_call(rt: HostRuntime) -> Result<(), Fail> {
    let mut line = SlotLine::new(rt.alloc(), 1, 3)?;
    let mut known = Vec::new(rt.alloc());
    for letter in b".HABCDEF............" {
        known.push(line.push(sent(*letter, 1).as_ref()).lc == Some(CALL))?;
    }
    // From the header in frame 6 to the last terminator in frame 15.
    for (frame, lc) in known.iter().enumerate() {
        assert_eq!(rt; *lc, 6 <= frame && frame <= 15, "at {frame}");
    }
    Ok(())
}

#[test]
fn hang_after_another_burst(rt: HostRuntime) -> Result<(), Fail> {
    // A control block ends the call's places, and its hang goes on.
    let out = downlink(rt.alloc(), b"HABCDEFK....", b"............")?;
    assert_eq!(rt; out.first.as_slice(), b"......HABCDEFKTTII".as_slice());
    Ok(())
}

/// The call hang of a line, by the letter of its burst.
fn held(letter: u8) -> SlotOut {
    SlotOut {
        repeated: None,
        hang: burst_of(letter, 1),
        lc: None,
    }
}

/// What the channel sends in both slots, in letters, where their lines hold them with these bursts, and the gateway has these.
fn channel_frame(channel: &mut Channel, hang: &[u8; 2], gate: &[u8; 2]) -> [u8; 2] {
    let slots = [held(hang[0]), held(hang[1])];
    let gate = [burst_of(gate[0], 1), burst_of(gate[1], 1)];
    let [first, second] = channel.frame(&slots, &gate);
    [letter_of(first.as_ref()), letter_of(second.as_ref())]
}

#[test]
fn gateway_burst(rt: HostRuntime) {
    let mut channel = Channel::new(1, 2);
    assert_eq!(rt; channel_frame(&mut channel, b"..", b".."), *b"..");
    assert_eq!(rt; channel_frame(&mut channel, b"..", b"K."), *b"KI");
    // The call hang goes before the gateway's burst, and neither counts.
    assert_eq!(rt; channel_frame(&mut channel, b"F.", b"K."), *b"FI");
    assert_eq!(rt; channel_frame(&mut channel, b"..", b".."), *b"II");
    assert_eq!(rt; channel_frame(&mut channel, b".F", b".."), *b".F");
}

#[test]
fn idle(rt: HostRuntime) {
    // The other tests tell it by the letter I.
    let idle = data(1, data_type::IDLE, &Bits::<96>::from_octets(&IDLE_BLOCK));
    assert!(rt; encode_burst(&idle, Side::Bs) == IDLE_BURST);
    let mut channel = Channel::new(1, 2);
    assert_eq!(rt; channel_frame(&mut channel, b"..", b"K."), *b"KI");
}

/// A call to radio 1 from radio 2.
const UNIT_CALL: FullLc = FullLc {
    protect: false,
    reserved: false,
    flco: 3,
    fid: 0,
    body: [0, 0, 0, 1, 0, 0, 2],
};

/// A talker alias, which is no call.
const ALIAS: FullLc = FullLc {
    protect: false,
    reserved: false,
    flco: 4,
    fid: 0,
    body: [0, 0, 0, 1, 0, 0, 2],
};

#[test]
fn activity_messages(rt: HostRuntime) {
    assert!(rt; Channel::message(Some(&CALL), None) == (1, 0x80_0700));
    assert!(rt; Channel::message(None, Some(&CALL)) == (1, 0x08_0007));
    assert!(rt; Channel::message(Some(&UNIT_CALL), Some(&CALL)) == (1, 0x98_0707));
    assert!(rt; Channel::message(Some(&ALIAS), Some(&UNIT_CALL)) == (1, 0x09_0007));
    assert!(rt; Channel::message(Some(&ALIAS), None) == (0, 0));
    assert!(rt; Channel::message(None, None) == (0, 0));
}
