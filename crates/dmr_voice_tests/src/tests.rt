//! Worked recordings of voice calls: what transmissions send and mean, slot by slot, beside what is repeated of their octets.
//! More of them stand with the tests of slots, whose lines repeat them.
ghost use Rattle.std.specs.Prelude.{◌<◌};
ghost use Rattle.dmr_burst.specs.Burst.{IsBurst};
ghost use Rattle.dmr_hearing.specs.Fit.{IsFitHeard};

use dmr_bits::Bits;
use dmr_bptc::bptc_encode;
use dmr_burst::{Burst, Emb, Side, data_type, encode_burst, lcss};
use dmr_embedded::embed;
use dmr_link::{FullLc, LcUse, lc_info};
use dmr_test_values::CALL_FIELDS;
use dmr_voice::{Heard, Role, VoiceOut, VoiceTrack, hear};
use std::alloc::AllocError;
use std::process::Abort;
use std::test::Fail;

const COLOUR: u8 = 1;

/// A group call to target 1 from source 2.
const GROUP: FullLc = FullLc {
    protect: false,
    reserved: false,
    flco: 0,
    fid: 0,
    body: [0, 0, 0, 1, 0, 0, 2],
};

/// A talker alias.
const ALIAS: FullLc = FullLc {
    protect: false,
    reserved: false,
    flco: 4,
    fid: 0,
    body: [0; 7],
};

/// All six places of a superframe.
const ALL: [bool; 6] = [true; 6];

/// Two wrong bits in a row of the table, all in the first field; one alone in each row.
const UNREADABLE: u32 = 0x8080_0000;

const READABLE: u32 = 0xFF00_0000;

/// What a superframe carries, and what is known of a call.
#[derive(Clone, Copy, PartialEq)]
enum Carried {
    Nothing,
    Group,
    Alias,
}

impl Carried {
    fn link_control(self) -> Option<FullLc> {
        match self {
            Carried::Nothing => None,
            Carried::Group => Some(GROUP),
            Carried::Alias => Some(ALIAS),
        }
    }

    /// The first, or else the second.
    fn or(self, other: Carried) -> Carried {
        if self == Carried::Nothing {
            other
        } else {
            self
        }
    }

    /// The embedded field of a place.
    fn field(self, place: usize) -> u32 {
        let fields = match self {
            Carried::Nothing => [0; 4],
            Carried::Group => embed(&GROUP.octets()),
            Carried::Alias => embed(&ALIAS.octets()),
        };
        let [b, c, d, e] = fields;
        [0, b, c, d, e, 0].get(place).copied().unwrap_or(0)
    }

    /// The LCSS of a place.
    fn lcss(self, place: usize) -> u8
        ensures small { result < 4 }
    {
        if self == Carried::Nothing {
            return lcss::SINGLE_FRAGMENT;
        }
        match place {
            1 => lcss::FIRST_FRAGMENT,
            2 | 3 => lcss::CONTINUATION_FRAGMENT,
            4 => lcss::LAST_FRAGMENT,
            _ => lcss::SINGLE_FRAGMENT,
        }
    }
}

/// A place of a call.
#[derive(Clone, Copy)]
struct Place {
    /// From 0, which is A.
    number: usize,
    there: bool,
    /// What its superframe is sent with, and the bits that are wrong in its embedded field.
    carries: Carried,
    wrong: u32,
    /// What its superframe goes out with.
    goes_out: Carried,
    known: Carried,
    /// Its vocoder bits.
    vocoder: u16,
}

/// What a slot sends.
#[derive(Clone, Copy)]
enum Sent {
    Silence,
    Header,
    /// A silence between header and voice.
    Gap,
    Terminator,
    Place(Place),
    /// A voice burst before the first A of a call.
    CutOff,
    ForeignSync,
    ForeignVoice,
}

/// What a slot is recorded as: a burst of a mobile station, or nothing.
type Recorded = Option<[u8; 33]>;

/// What a data burst of the call says: a header, or a terminator.
fn message(kind: u8) -> Bits<96> {
    match kind {
        data_type::VOICE_LC_HEADER => lc_info(&GROUP, LcUse::Header),
        _ => lc_info(&GROUP, LcUse::Terminator),
    }
}

fn data_burst(kind: u8, message: &Bits<96>) -> Burst
    requires kind { kind < 16 }
    ensures fit { IsBurst result }
{
    Burst::Data {
        colour: COLOUR,
        kind,
        info: bptc_encode(message),
    }
}

fn vocoder_bits(number: u16) -> Bits<216> {
    Bits::<216>::zero().with_field(100, 16, u64::from(number))
}

fn voice_burst(colour: u8, lcss: u8, embedded: u32, vocoder: u16) -> Burst
    requires colour { colour < 16 }
    requires lcss { lcss < 4 }
    ensures fit { IsBurst result }
{
    Burst::Voice {
        emb: Emb {
            colour,
            pi: false,
            lcss,
        },
        embedded,
        vocoder: vocoder_bits(vocoder),
    }
}

fn sync_burst(vocoder: u16) -> Burst
    ensures fit { IsBurst result }
{
    Burst::VoiceSync {
        vocoder: vocoder_bits(vocoder),
    }
}

fn recorded(burst: &Burst) -> Recorded
    requires fit { IsBurst burst.now }
{
    Some(encode_burst(burst, Side::Ms))
}

fn recorded_data(kind: u8) -> Recorded
    requires kind { kind < 16 }
{
    recorded(&data_burst(kind, &message(kind)))
}

fn recorded_place(place: Place) -> Recorded {
    if !place.there {
        return None;
    }
    if place.number == 0 {
        return recorded(&sync_burst(place.vocoder));
    }
    let field = place.carries.field(place.number) ^ place.wrong;
    let lcss = place.carries.lcss(place.number);
    recorded(&voice_burst(COLOUR, lcss, field, place.vocoder))
}

/// What a slot is recorded as.
fn recorded_as(sent: Sent) -> Recorded {
    match sent {
        Sent::Silence | Sent::Gap => None,
        Sent::Header => recorded_data(data_type::VOICE_LC_HEADER),
        Sent::Terminator => recorded_data(data_type::TERMINATOR_WITH_LC),
        Sent::Place(place) => recorded_place(place),
        Sent::CutOff => recorded(&voice_burst(COLOUR, lcss::CONTINUATION_FRAGMENT, 0, 7)),
        Sent::ForeignSync => recorded(&sync_burst(8)),
        Sent::ForeignVoice => recorded(&voice_burst(2, lcss::SINGLE_FRAGMENT, 0, 9)),
    }
}

fn data_of_the_call(kind: u8) -> VoiceOut
    requires kind { kind < 16 }
{
    VoiceOut::Repeat {
        burst: data_burst(kind, &message(kind)),
        role: Role::Call(Some(GROUP)),
    }
}

fn meant_place(place: Place) -> VoiceOut {
    let vocoder = if place.there { place.vocoder } else { 0 };
    let burst = if place.number == 0 {
        sync_burst(vocoder)
    } else {
        let field = place.goes_out.field(place.number);
        let lcss = place.goes_out.lcss(place.number);
        voice_burst(COLOUR, lcss, field, vocoder)
    };
    VoiceOut::Repeat {
        burst,
        role: Role::Call(place.known.link_control()),
    }
}

/// What a slot means.
fn meant_by(sent: Sent) -> VoiceOut {
    match sent {
        Sent::Header | Sent::Gap => data_of_the_call(data_type::VOICE_LC_HEADER),
        Sent::Terminator => data_of_the_call(data_type::TERMINATOR_WITH_LC),
        Sent::Place(place) => meant_place(place),
        Sent::Silence | Sent::CutOff | Sent::ForeignSync | Sent::ForeignVoice => VoiceOut::Nothing,
    }
}

/// What a slot sends, a letter each: places by `V` where they carry nothing that is told apart here.
fn sent_by(letter: u8) -> Sent {
    match letter {
        b'H' => Sent::Header,
        b'G' => Sent::Gap,
        b'T' => Sent::Terminator,
        b'C' => Sent::CutOff,
        b'S' => Sent::ForeignSync,
        b'F' => Sent::ForeignVoice,
        _ => Sent::Silence,
    }
}

/// Adds what these letters send.
fn send(slots: &mut Vec<Sent>, letters: &[u8]) -> Result<(), AllocError> {
    for letter in letters {
        slots.push(sent_by(*letter))?;
    }
    Ok(())
}

/// Adds a superframe of a call of which this is known, with wrong bits in the embedded field of B. It answers what is known of
/// the call after it.
fn send_superframe(
    slots: &mut Vec<Sent>,
    call: Carried,
    carries: Carried,
    wrong: u32,
    places: [bool; 6],
) -> Result<Carried, AllocError> {
    let [_, b, c, d, e, _] = places;
    let own = if wrong != UNREADABLE && b && c && d && e {
        carries
    } else {
        Carried::Nothing
    };
    let known = if own == Carried::Alias {
        call
    } else {
        call.or(own)
    };
    for number in 0..6 {
        let place = Place {
            number,
            there: places[number],
            carries,
            wrong: if number == 1 { wrong } else { 0 },
            goes_out: own.or(known),
            known,
            vocoder: (100 + number) as u16,
        };
        slots.push(Sent::Place(place))?;
    }
    Ok(known)
}

/// What is heard of a slot, silence past the end.
fn heard_at(slots: &[Sent], number: usize) -> Heard
    ensures fit { IsFitHeard result }
{
    let recorded = match slots.get(number) {
        Some(sent) => recorded_as(*sent),
        None => None,
    };
    hear(recorded.as_ref(), COLOUR)
}

/// What is repeated for the first of these slots.
fn step_over(track: &mut VoiceTrack, slots: &[Sent], number: usize) -> VoiceOut {
    let window = [
        heard_at(slots, number),
        heard_at(slots, number.saturating_add(1)),
        heard_at(slots, number.saturating_add(2)),
        heard_at(slots, number.saturating_add(3)),
        heard_at(slots, number.saturating_add(4)),
        heard_at(slots, number.saturating_add(5)),
    ];
    track.step(&window)
}

/// A letter for what is repeated: header, terminator, A, another place of a call, nothing.
fn letter_of(out: &VoiceOut) -> u8 {
    match out {
        VoiceOut::Nothing => b'.',
        VoiceOut::Repeat { burst, .. } => match burst {
            Burst::Data { kind, .. } => match *kind {
                data_type::VOICE_LC_HEADER => b'H',
                data_type::TERMINATOR_WITH_LC => b'T',
                _ => b'D',
            },
            Burst::VoiceSync { .. } => b'A',
            Burst::Voice { .. } => b'V',
        },
    }
}

/// The embedded field that is repeated.
fn field_of(out: &VoiceOut) -> u32 {
    match out {
        VoiceOut::Nothing => 0,
        VoiceOut::Repeat { burst, .. } => match burst {
            Burst::Data { .. } | Burst::VoiceSync { .. } => 0,
            Burst::Voice { embedded, .. } => *embedded,
        },
    }
}

/// Sees that the rules repeat what is meant, and that it is this.
fn expect(rt: &impl Abort, slots: &[Sent], line: &[u8]) {
    let mut track = VoiceTrack::new(COLOUR);
    for number in 0..slots.len() {
        let out = step_over(&mut track, slots, number);
        assert!(rt; line.get(number).copied() == Some(letter_of(&out)));
        if let Some(sent) = slots.get(number) {
            assert!(rt; out == meant_by(*sent));
        }
    }
}

/// Sees that the places B to E from a slot on go out with these embedded fields.
fn expect_fields(rt: &impl Abort, slots: &[Sent], from: usize, fields: &[u32; 4]) {
    let mut track = VoiceTrack::new(COLOUR);
    for number in 0..slots.len() {
        let out = step_over(&mut track, slots, number);
        if number >= from {
            if let Some(field) = fields.get(number - from) {
                assert!(rt; field_of(&out) == *field);
            }
        }
    }
}

/// What a late call of one superframe that carries these embedded fields is recorded as.
fn recorded_late_call(carried: &[u32; 4], number: usize) -> Recorded {
    match number {
        0 => recorded(&sync_burst(0)),
        1 => recorded(&voice_burst(COLOUR, lcss::FIRST_FRAGMENT, carried[0], 0)),
        2 => recorded(&voice_burst(COLOUR, lcss::CONTINUATION_FRAGMENT, carried[1], 0)),
        3 => recorded(&voice_burst(COLOUR, lcss::CONTINUATION_FRAGMENT, carried[2], 0)),
        4 => recorded(&voice_burst(COLOUR, lcss::LAST_FRAGMENT, carried[3], 0)),
        5 => recorded(&voice_burst(COLOUR, lcss::SINGLE_FRAGMENT, 0, 0)),
        _ => None,
    }
}

fn heard_of_late_call(carried: &[u32; 4], number: usize) -> Heard
    ensures fit { IsFitHeard result }
{
    hear(recorded_late_call(carried, number).as_ref(), COLOUR)
}

/// The embedded field that goes out for one of its slots.
fn step_over_late_call(track: &mut VoiceTrack, carried: &[u32; 4], number: usize) -> u32 {
    let window = [
        heard_of_late_call(carried, number),
        heard_of_late_call(carried, number.saturating_add(1)),
        heard_of_late_call(carried, number.saturating_add(2)),
        heard_of_late_call(carried, number.saturating_add(3)),
        heard_of_late_call(carried, number.saturating_add(4)),
        heard_of_late_call(carried, number.saturating_add(5)),
    ];
    field_of(&track.step(&window))
}

/// The embedded fields that go out for its places B to E.
fn fields_of_late_call(carried: &[u32; 4]) -> [u32; 4] {
    let mut track = VoiceTrack::new(COLOUR);
    step_over_late_call(&mut track, carried, 0);
    [
        step_over_late_call(&mut track, carried, 1),
        step_over_late_call(&mut track, carried, 2),
        step_over_late_call(&mut track, carried, 3),
        step_over_late_call(&mut track, carried, 4),
    ]
}

// A late call knows its link control from its embedded word alone.
#[test]
fn embedded_group_call(rt: HostRuntime) {
    let [b, c, d, e] = CALL_FIELDS;
    assert!(rt; fields_of_late_call(&CALL_FIELDS) == CALL_FIELDS);
    // one wrong bit in each row
    assert!(rt; fields_of_late_call(&[b, 0xFF09_0000, d, e]) == CALL_FIELDS);
    // two wrong bits in a row, two odd columns, and a wrong checksum
    let unreadable = [
        [0x8080_0000, c, d, e],
        [0x0101_0000, c, d, e],
        [0, 0, 0x0000_0300, 0x0003_0303],
    ];
    for carried in unreadable {
        assert!(rt; fields_of_late_call(&carried) == [0; 4]);
    }
}

#[test]
fn late_entry(rt: HostRuntime) -> Result<(), Fail> {
    let mut slots = Vec::new(rt.alloc());
    send(&mut slots, b"CCC")?;
    let known = send_superframe(&mut slots, Carried::Nothing, Carried::Group, 0, ALL)?;
    send_superframe(&mut slots, known, Carried::Group, 0, ALL)?;
    send(&mut slots, b"T")?;
    expect(&rt, &slots, b"...AVVVVVAVVVVVT");
    expect_fields(&rt, &slots, 4, &CALL_FIELDS);
    Ok(())
}

#[test]
fn call_with_gap(rt: HostRuntime) -> Result<(), Fail> {
    let mut slots = Vec::new(rt.alloc());
    send(&mut slots, b"HGGG")?;
    send_superframe(&mut slots, Carried::Group, Carried::Nothing, 0, ALL)?;
    send(&mut slots, b"......")?;
    expect(&rt, &slots, b"HHHHAVVVVV......");
    Ok(())
}

#[test]
fn damaged_embedded_word(rt: HostRuntime) -> Result<(), Fail> {
    let mut slots = Vec::new(rt.alloc());
    send(&mut slots, b"H")?;
    send_superframe(&mut slots, Carried::Group, Carried::Alias, UNREADABLE, ALL)?;
    send_superframe(&mut slots, Carried::Group, Carried::Alias, READABLE, ALL)?;
    send(&mut slots, b"T")?;
    expect(&rt, &slots, b"HAVVVVVAVVVVVT");
    expect_fields(&rt, &slots, 2, &CALL_FIELDS);
    Ok(())
}

#[test]
fn late_call_without_link_control(rt: HostRuntime) -> Result<(), Fail> {
    let mut slots = Vec::new(rt.alloc());
    let known = send_superframe(
        &mut slots,
        Carried::Nothing,
        Carried::Group,
        UNREADABLE,
        ALL,
    )?;
    send_superframe(&mut slots, known, Carried::Group, 0, ALL)?;
    send(&mut slots, b"......")?;
    expect(&rt, &slots, b"AVVVVVAVVVVV......");
    expect_fields(&rt, &slots, 1, &[0; 4]);
    expect_fields(&rt, &slots, 7, &CALL_FIELDS);
    Ok(())
}

#[test]
fn talker_alias(rt: HostRuntime) -> Result<(), Fail> {
    let mut slots = Vec::new(rt.alloc());
    send(&mut slots, b"H")?;
    send_superframe(&mut slots, Carried::Group, Carried::Group, 0, ALL)?;
    send_superframe(&mut slots, Carried::Group, Carried::Alias, 0, ALL)?;
    send(&mut slots, b"T")?;
    expect(&rt, &slots, b"HAVVVVVAVVVVVT");
    expect_fields(&rt, &slots, 2, &CALL_FIELDS);
    expect_fields(&rt, &slots, 8, &embed(&[4, 0, 0, 0, 0, 0, 0, 0, 0]));
    Ok(())
}

#[test]
fn other_colour(rt: HostRuntime) -> Result<(), Fail> {
    let mut slots = Vec::new(rt.alloc());
    // its header is heard as nothing
    send(&mut slots, b".SFFFFFC")?;
    expect(&rt, &slots, b"........");
    Ok(())
}
