//! The lines of bursts, and the places of superframes.
use crate::tests::{are_printed, are_same, is_printed};
use dmr_burst::{Emb, Side, lcss};
use dmr_csbk::Csbk;
use dmr_link::FullLc;
use dmr_listing::{
    BurstCounts, Contents, Frames, ListedBurst, Mark, OutgoingLine, ReceivedLine, RecordingSummary,
    SlotView, Strip, StripLine, Taker, VoicePlace, VoicePlaces, list_recording, strip_recording,
};
use dmr_reading::Reading;
use dmr_record::{DeviceFault, FromRead, Received, ReceivedKind, RecordFault, read_outgoing};
use dmr_recording::{FaultLine, Place, Recording, Stop};
use hex::FromHex;
use std::alloc::{AllocError, Global};
use std::fmt::Write;
use std::process::Abort;
use std::test::Fail;

/// A voice burst with embedded signalling.
fn voice() -> Option<Reading> {
    Some(Reading::Voice(Emb {
        colour: 1,
        pi: false,
        lcss: lcss::SINGLE_FRAGMENT,
    }))
}

/// The burst that begins a superframe.
fn sync() -> Option<Reading> {
    Some(Reading::VoiceSync(Side::Ms))
}

/// A data burst whose slot type is too damaged.
fn data() -> Option<Reading> {
    Some(Reading::Untyped(Side::Ms))
}

#[test]
fn places_of_a_superframe(rt: HostRuntime) {
    let frames = [
        (voice(), None),
        (sync(), Some(VoicePlace::A)),
        (voice(), Some(VoicePlace::B)),
        (None, Some(VoicePlace::C)),
        (voice(), Some(VoicePlace::D)),
        (voice(), Some(VoicePlace::E)),
        (voice(), Some(VoicePlace::F)),
        (voice(), None),
        (sync(), Some(VoicePlace::A)),
        (data(), None),
        (voice(), None),
    ];
    let mut places = VoicePlaces::new();
    for (reading, want) in frames {
        let place = places.next(reading);
        assert!(rt; place == want);
    }
}

/// The bursts of the sample `call`, each in a frame of its own, and its line in a listing.
const CALL: [(u32, &str, &str); 7] = [
    (
        0,
        "0010015E028812380E304440046D5D7F77FD757E322C0328019007A005410D0055",
        "     0.00       0 1  MS   1  voice header  group call 2 -> 1",
    ),
    (
        1,
        "4420823CFDE6F1C26B30F90EC7D7F7D5DD57DFDD01E4887534A20F0B0D04C36ED8",
        "     0.06       1 1  MS   -  voice A",
    ),
    (
        2,
        "0E71E0FD77B07670EB940BD5335130000000091F973DAAD8619B91FFC911F57CCE",
        "     0.12       2 1  -    1  voice B       LCSS 1",
    ),
    (
        3,
        "D458BBBF2CE03753C9BDFA0FF0117000900007469DC9575674066676CFB0B4EB89",
        "     0.18       3 1  -    1  voice C       LCSS 3",
    ),
    (
        4,
        "02C44269DA1CF6BA66D3F8B6D4B170300060A74100A9EA0E755A5C2E8210242A08",
        "     0.24       4 1  -    1  voice D       LCSS 3",
    ),
    (
        5,
        "E7078F7F89385EB09423555182515030F060C0768B96E8A4FEF23A0C9FC5AFD760",
        "     0.30       5 1  -    1  voice E       LCSS 2, group call 2 -> 1",
    ),
    (
        6,
        "8437816BDD0A7309CB4A1252E4D1100000000E2A70E6720FCAA4DA1E98406C189C",
        "     0.36       6 1  -    1  voice F       LCSS 0",
    ),
];

#[test]
fn lines_of_a_call(rt: HostRuntime) -> Result<(), Fail> {
    let mut view = SlotView::new();
    let mut bursts = BurstCounts::default();
    for (frame, burst, line) in CALL {
        let burst = <[u8; 33] as FromHex>::from_hex(burst)?;
        let shown = view.line(Place { frame, slot: 1 }, None, &burst);
        bursts = bursts.with(&shown);
        is_printed(&rt, &shown, line)?;
    }
    let summary = RecordingSummary { frames: 20, bursts };
    let want = "frames 20 seconds 1.20 slot-1 7 slot-2 0 unreadable 0";
    is_printed(&rt, &summary, want)
}

#[test]
fn faults_and_where_they_are(rt: HostRuntime) -> Result<(), Fail> {
    let at = |fault, octet, place| FaultLine {
        fault,
        octet,
        place,
    };
    let slot_1 = Some(Place::of_slot(0));
    let slot_2 = Some(Place::of_slot(1));
    are_printed(
        &rt,
        &[
            (at(RecordFault::CutRecord, 0, None), "cut record at octet 0"),
            (
                at(RecordFault::CutRecord, 8, slot_1),
                "cut record at octet 8, frame 0, slot 1",
            ),
            (
                at(RecordFault::HalfFrame, 42, slot_2),
                "half frame at octet 42, frame 0, slot 2",
            ),
        ],
    )
}

/// A burst, its CACH where it has one, where it stands, and its line.
type Listed = (u32, u8, Option<[u8; 3]>, &'static str, &'static str);

/// Bursts of the samples `privacy_header`, `damaged_csbk` and `confirmed_packet_received`.
const BURSTS: [Listed; 7] = [
    (
        6,
        1,
        Some([0x80, 0x0A, 0x65]),
        "0010015E028812380E304440046DFF57D75DF5DE322C0328019007A005410D0055",
        "     0.36       6 1  BS*  1  voice header  group call 2 -> 1",
    ),
    (
        6,
        2,
        Some([0x1B, 0x9C, 0x70]),
        "53C25EABA8671DC7383BD936065DFF57D75DF5D92BF6E465171B48CA6D4FC610B4",
        "     0.39       6 2  BS   1  idle",
    ),
    (
        7,
        1,
        Some([0x83, 0x9C, 0x09]),
        "07E3065E05ED0A582213AF83440DFF57D75DF5DD9D9C2138C8130CE60781161442",
        "     0.42       7 1  BS*  1  PI header     00010203040506070809B5EE",
    ),
    (
        8,
        1,
        Some([0x00, 0x08, 0x67]),
        "007F018A023812400E4044E004ADFF57D75DF5D96738001006F00BE00D41140066",
        "     0.48       8 1  BS   1  terminator    group call 2 -> 1",
    ),
    (
        0,
        1,
        None,
        "C062808301920104042804F03CC35D7F77FD757AC81A002C0258029000F0126022",
        "     0.00       0 1  MS   1  CSBK          opcode 0, fid 0, 0000000000000000  \
            [wrong: sync 3, slot type 3, information 15]",
    ),
    (
        0,
        1,
        None,
        "00620319048A00880A502A41058D5D7F77FD75733808205C03C6096100C85D3096",
        "     0.00       0 1  MS   1  data header   confirmed 2 -> 1, SAP 4, N(S) 0, 64 blocks, pad 0",
    ),
    // The CACH has a wrong bit in AT, and the slot type of the burst four.
    (
        1_048_581,
        2,
        Some([0x88, 0x88, 0x20]),
        "53C25EABA8671DC7383BD9363A5DFF57D75DF5D92BF6E465171B48CA6D4FC610B4",
        " 62914.89 1048581 2  BS   -  data          slot type unreadable",
    ),
];

#[test]
fn lines_of_bursts(rt: HostRuntime) -> Result<(), Fail> {
    for (frame, slot, cach, burst, line) in BURSTS {
        let burst = <[u8; 33] as FromHex>::from_hex(burst)?;
        let shown = SlotView::new().line(Place { frame, slot }, cach, &burst);
        is_printed(&rt, &shown, line)?;
    }
    Ok(())
}

/// A link control of an opcode, all options of a call set, from 2 to 1.
fn link_control(flco: u8) -> Contents {
    Contents::LinkControl(FullLc {
        protect: false,
        reserved: false,
        flco,
        fid: 0,
        body: [0xCF, 0, 0, 1, 0, 0, 2],
    })
}

/// A control block of an opcode and a feature set.
fn control_block(code: u8, fid: u8) -> Contents {
    Contents::ControlBlock(Csbk {
        last: true,
        protect: false,
        code,
        fid,
        body: [0x80, 3, 0, 0, 7, 0, 0, 2],
    })
}

#[test]
fn details_of_link_controls(rt: HostRuntime) -> Result<(), Fail> {
    are_printed(
        &rt,
        &[
            (
                link_control(3),
                "unit call 2 -> 1, emergency, privacy, broadcast, OVCM, priority 3",
            ),
            (link_control(4), "talker alias header, CF000001000002"),
            (link_control(7), "talker alias block 3, CF000001000002"),
            (link_control(8), "GPS info, CF000001000002"),
            (link_control(9), "LC opcode 9, CF000001000002"),
        ],
    )
}

#[test]
fn details_of_control_blocks(rt: HostRuntime) -> Result<(), Fail> {
    are_printed(
        &rt,
        &[
            (control_block(61, 0), "preamble, data to follow 3, 2 -> 7"),
            (control_block(56, 0), "BS activation by 2 of 7"),
            (control_block(56, 16), "opcode 56, fid 16, 8003000007000002"),
        ],
    )
}

/// A record of an outgoing list.
const OUTGOING: &[u8] = b"\x02\x00\x00\x00\x05\x01\x00\x00\x1C\
    \x45\x00\x00\x1C\x12\x34\x00\x00\x40\x11\x50\x9B\x0C\x00\x00\x01\x0C\x00\x00\x02\x13\x98\x13\x9A\x00\x08\xC0\xA9";

#[test]
fn the_line_of_an_outgoing_record(rt: HostRuntime) -> Result<(), Fail> {
    let mut source = FromRead::new(OUTGOING);
    let Ok(Some(record)) = read_outgoing(&mut source, 0, 0) else {
        return Err(Fail::from("no record"));
    };
    let line = OutgoingLine { record: &record };
    let want =
        "     0.30       5 1  unconfirmed, rate 1/2, 28 octets: UDP 12.0.0.1:5016 -> 12.0.0.2:5018, \
        0 octets of data";
    is_printed(&rt, &line, want)
}

#[test]
fn the_line_of_a_received_record(rt: HostRuntime) -> Result<(), Fail> {
    let record = Received {
        frame: 6,
        slot: 1,
        kind: ReceivedKind::Status,
        source: 3,
        length: 4,
    };
    let line = ReceivedLine {
        record,
        octets: &[1, 2, 0, 5],
    };
    let want = "     0.36       6 1  status from 3, 4 octets: port 1 -> 2, status 5";
    is_printed(&rt, &line, want)
}

/// Lines of bursts in the order in which they come, as text, with their places, and the faults of whoever takes them.
#[derive(Drop)]
struct TakenLines {
    text: String,
    places: Vec<Place>,
    room: usize,
    is_failed: bool,
}

impl Taker<ListedBurst> for TakenLines {
    ghost use Rattle.std.specs.Prelude.{◌≡◌, ◌∷◌, ◌++◌, []};

    // The places grow by that of the line.
    ghost Takes = { λ old listed new. new.places.items ≡ old.places.items ++ listed.line.place ∷ [] };

    ghost Refuses = { λ old listed new. new.places.items ≡ old.places.items };

    ghost has_failed = { λ taken. taken.is_failed };

    ghost kept = { λ taken. 0 };

    fn put(&mut self, listed: &ListedBurst) -> Result<(), DeviceFault> {
        let line = &listed.line;
        if self.room == 0
            || writeln!(self.text, "{line}").is_err()
            || self.places.push(line.place).is_err()
        {
            self.is_failed = true;
            return Err(DeviceFault);
        }
        self.room -= 1;
        Ok(())
    }
}

/// What a recording of an uplink, from behind its head, is listed as, where there is room for so many lines.
fn expect_listing(
    rt: &impl Abort,
    alloc: Global,
    octets: &[u8],
    room: usize,
    want: Result<RecordingSummary, Stop>,
    text: &str,
) {
    let mut source = FromRead::new(octets);
    let mut taken = TakenLines {
        text: String::new(alloc),
        places: Vec::new(alloc),
        room,
        is_failed: false,
    };
    let answer = list_recording(&mut source, Recording::Uplink, &mut taken);
    assert!(rt; answer == want, "of {} octets", octets.len());
    are_same(rt, "lines", &taken.text.as_str(), &text);
}

/// The frame of the sample `one_csbk`, and the line of its burst.
const FRAME: &[u8] = b"010062008201900100042004E004CD5D7F77FD757AC81800280250028000C012002200";

const LINE: &str = "     0.00       0 1  MS   1  CSBK          opcode 0, fid 0, 0000000000000000\n";

#[test]
fn listings_of_recordings(rt: HostRuntime) -> Result<(), Fail> {
    let file = hex::decode(rt.alloc(), FRAME)?;
    let empty = RecordingSummary {
        frames: 0,
        bursts: BurstCounts::default(),
    };
    let whole = RecordingSummary {
        frames: 1,
        bursts: BurstCounts {
            slot_1: 1,
            slot_2: 0,
            unreadable: 0,
        },
    };
    let cut = FaultLine {
        fault: RecordFault::CutRecord,
        octet: 8,
        place: Some(Place { frame: 0, slot: 1 }),
    };
    let half = FaultLine {
        fault: RecordFault::HalfFrame,
        octet: 42,
        place: Some(Place { frame: 0, slot: 2 }),
    };
    for (count, room, want, text) in [
        (0, 9, Ok(empty), ""),
        (12, 9, Err(Stop::File(cut)), ""),
        (34, 9, Err(Stop::File(half)), LINE),
        (35, 9, Ok(whole), LINE),
        (35, 0, Err(Stop::Output), ""),
    ] {
        let octets = file.get(..count).unwrap_or(&[]);
        expect_listing(&rt, rt.alloc(), octets, room, want, text);
    }
    Ok(())
}

/// The letters of strips.
const LETTERS: [(Mark, &str); 13] = [
    (Mark::Silence, "."),
    (Mark::PrivacyHeader, "P"),
    (Mark::VoiceHeader, "H"),
    (Mark::Voice(Some(VoicePlace::A)), "A"),
    (Mark::Voice(Some(VoicePlace::F)), "F"),
    (Mark::Voice(None), "v"),
    (Mark::Terminator, "T"),
    (Mark::ControlBlock, "c"),
    (Mark::MultiBlock, "m"),
    (Mark::DataHeader, "D"),
    (Mark::DataBlock, "b"),
    (Mark::Idle, "i"),
    (Mark::Unreadable, "?"),
];

#[test]
fn letters(rt: HostRuntime) -> Result<(), Fail> {
    are_printed(&rt, &LETTERS)
}

/// The lines of strips in the order in which they come, and the faults of whoever takes them.
#[derive(Drop)]
struct TakenStrips {
    text: String,
    room: usize,
    is_failed: bool,
}

impl TakenStrips {
    ghost use Rattle.std.specs.Prelude.{◌≡◌};

    /// Takes a line, where there is one.
    fn take(&mut self, line: Option<StripLine<'_>>) -> Result<(), AllocError>
        ensures well { self.new.is_failed ≡ self.old.is_failed }
        ensures room { self.new.room ≡ self.old.room }
    {
        match line {
            Some(line) => writeln!(self.text, "{line}"),
            None => Ok(()),
        }
    }
}

impl Taker<Strip> for TakenStrips {
    ghost use Rattle.std.specs.Prelude.{◌≡◌, ◌+◌};

    // There is room for a strip less.
    ghost Takes = { λ old strip new. old.room ≡ new.room + 1 };

    ghost Refuses = { λ old strip new. new.room ≡ old.room };

    ghost has_failed = { λ taken. taken.is_failed };

    ghost kept = { λ taken. 0 };

    fn put(&mut self, strip: &Strip) -> Result<(), DeviceFault> {
        if self.room == 0
            || self.take(strip.line(1)).is_err()
            || self.take(strip.line(2)).is_err()
        {
            self.is_failed = true;
            return Err(DeviceFault);
        }
        self.room -= 1;
        Ok(())
    }
}

/// What these frames of a recording of an uplink, from behind its head, have for strips, where there is room for so many.
fn expect_strips(
    rt: &impl Abort,
    alloc: Global,
    octets: &[u8],
    frames: Frames,
    room: usize,
    want: Stop,
    text: &str,
) {
    let mut source = FromRead::new(octets);
    let mut taken = TakenStrips {
        text: String::new(alloc),
        room,
        is_failed: false,
    };
    let answer = strip_recording(&mut source, Recording::Uplink, frames, &mut taken);
    assert!(rt; answer == Err(want));
    are_same(rt, "strips", &taken.text.as_str(), &text);
}

/// A frame with that burst in slot 2, and half of one.
const FRAME_AND_HALF: &[u8] =
    b"00010062008201900100042004E004CD5D7F77FD757AC81800280250028000C012002200";

#[test]
fn strips_of_recordings(rt: HostRuntime) -> Result<(), Fail> {
    let octets = hex::decode(rt.alloc(), FRAME_AND_HALF)?;
    let half = FaultLine {
        fault: RecordFault::HalfFrame,
        octet: 44,
        place: Some(Place { frame: 1, slot: 2 }),
    };
    for (first, room, want, text) in [
        (0, 9, Stop::File(half), "      0 1  ..\n      0 2  c\n"),
        (1, 9, Stop::File(half), "      1 1  .\n"),
        (2, 9, Stop::File(half), ""),
        (0, 0, Stop::Output, ""),
    ] {
        let frames = Frames { first, last: 9 };
        expect_strips(&rt, rt.alloc(), octets.as_slice(), frames, room, want, text);
    }
    Ok(())
}
