//! What is printed of logs.
use crate::recordings::{LATE_CALLS, PACKETS, SCENE, WRONG_BITS};
use dmr_log_forms::{LogForm, LogSettings, StartTime, print_log};
use dmr_record::{FromRead, ToWrite};
use dmr_show::Filter;
use std::fmt::Debug;
use std::process::Abort;
use std::test::Fail;

/// That both are the same, of what is told where they aren't.
pub(crate) fn are_same<T: PartialEq + Debug>(rt: &impl Abort, what: &str, got: &T, expected: &T) {
    assert_eq!(rt; got, expected, "{what}");
}

/// That these octets are this text.
pub(crate) fn is_text(rt: &impl Abort, what: &str, octets: &[u8], expected: &str) {
    are_same(rt, what, &str::from_utf8(octets).ok(), &Some(expected));
}

/// The log of all that a repeater of colour code 1 repeats, with a gateway at this address, if there is one.
fn all(form: LogForm, address: Option<u32>) -> LogSettings {
    LogSettings {
        colour: 1,
        address,
        form,
        start: None,
        filter: Filter {
            slot: None,
            from: None,
            to: None,
        },
    }
}

/// That these octets are these pieces of text, one behind the other.
pub(crate) fn are_pieces(rt: &impl Abort, octets: &[u8], pieces: &[&str]) {
    let mut left = str::from_utf8(octets).unwrap_or("no text");
    for piece in pieces {
        are_same(rt, "piece", &left.get(..piece.len()), &Some(*piece));
        left = left.get(piece.len()..).unwrap_or("");
    }
    are_same(rt, "behind the pieces", &left, &"");
}

/// The log of these octets is printed so, in pieces.
fn expect_printed(
    rt: &(impl Abort + AllocGlobal),
    octets: &[u8],
    settings: &LogSettings,
    status: u8,
    out: &[&str],
    err: &str,
) {
    let alloc = rt.alloc();
    let mut source = FromRead::new(octets);
    let mut output = ToWrite::new(Vec::new(alloc));
    let mut errors = ToWrite::new(Vec::new(alloc));
    let ended = print_log(
        alloc,
        "up.dmru",
        settings,
        &mut source,
        &mut output,
        &mut errors,
    );
    are_pieces(rt, output.into_inner().as_slice(), out);
    is_text(rt, "errors", errors.into_inner().as_slice(), err);
    are_same(rt, "status", &ended, &status);
}

/// The log of the first octets of a file is printed so, in pieces.
fn expect_of(
    rt: &(impl Abort + AllocGlobal),
    file: &str,
    count: usize,
    settings: LogSettings,
    status: u8,
    out: &[&str],
    err: &str,
) -> Result<(), Fail> {
    let file = hex::decode(rt.alloc(), file.as_bytes())?;
    let octets = file.get(..count).unwrap_or(file.as_slice());
    expect_printed(rt, octets, &settings, status, out, err);
    Ok(())
}

/// The log of a whole file is printed so, in pieces.
fn expect(
    rt: &(impl Abort + AllocGlobal),
    file: &str,
    settings: LogSettings,
    out: &[&str],
) -> Result<(), Fail> {
    expect_of(rt, file, usize::MAX, settings, 0, out, "")
}

/// The line of the status.
const STATUS: &str = "     0.75     0.06      12 2  status 4 -> 1, port 1 -> 2, status 5\n";

/// The lines of the calls.
const CALL: &str =
    "     0.00     0.96       0 1  group call 2 -> 1, 12 places, 2 filled, terminator\n";

const LATE_CALL: &str =
    "     1.32     0.36      22 1  group call 3 -> 1, emergency, late, 6 places, lost\n";

/// The last line.
const COUNTS: &str = "frames 40 seconds 2.40 calls 2 packets 1 controls 0 repeated 23\n";

#[test]
fn lines(rt: HostRuntime) -> Result<(), Fail> {
    let wanted = [STATUS, CALL, LATE_CALL, COUNTS];
    expect(&rt, SCENE, all(LogForm::Lines, None), &wanted)
}

#[test]
fn lines_of_late_calls(rt: HostRuntime) -> Result<(), Fail> {
    expect(
        &rt,
        LATE_CALLS,
        all(LogForm::Lines, None),
        &[
            "     0.12     0.36       2 1  call, late, 6 places, 1 filled, lost\n",
            "     0.96     0.42      16 1  group call 2 -> 1, late, 6 places, 1 filled, terminator\n",
            "frames 23 seconds 1.38 calls 2 packets 0 controls 0 repeated 13\n",
        ],
    )
}

#[test]
fn lines_of_a_slot_up_to_a_frame(rt: HostRuntime) -> Result<(), Fail> {
    let first_slot = LogSettings {
        filter: Filter {
            slot: Some(1),
            from: None,
            to: Some(10),
        },
        ..all(LogForm::Lines, None)
    };
    expect(&rt, SCENE, first_slot, &[CALL, COUNTS])
}

#[test]
fn lines_from_a_frame(rt: HostRuntime) -> Result<(), Fail> {
    let later = LogSettings {
        filter: Filter {
            slot: None,
            from: Some(1),
            to: None,
        },
        ..all(LogForm::Lines, None)
    };
    expect(&rt, SCENE, later, &[STATUS, LATE_CALL, COUNTS])
}

#[test]
fn lines_of_a_gateway(rt: HostRuntime) -> Result<(), Fail> {
    let wanted = [
        STATUS,
        "     0.75     0.06      12 2  received status from 4, 4 octets: port 1 -> 2, status 5\n",
        CALL,
        LATE_CALL,
        "frames 40 seconds 2.40 calls 2 packets 1 controls 0 repeated 23 received 1\n",
    ];
    expect(&rt, SCENE, all(LogForm::Lines, Some(1)), &wanted)
}

#[test]
fn lines_of_packets_and_control_blocks(rt: HostRuntime) -> Result<(), Fail> {
    expect(
        &rt,
        PACKETS,
        all(LogForm::Lines, None),
        &[
            "     0.00     0.12       0 1  preamble 2 -> group 9, 2 bursts\n",
            "     0.18     0.06       3 1  BS activation 2 -> 7\n",
            "     0.30     0.06       5 1  CSBK opcode 4, fid 16\n",
            "     0.42     0.12       7 1  MBC header, 2 bursts\n",
            "     0.60     0.30      10 1  confirmed data 2 -> 1, SAP 4, N(S) 6, 1 of 2 blocks\n",
            "     0.96     0.12      16 1  partial try 2 -> 1, SAP 4, N(S) 6, 1 of 1 block\n",
            "     1.14     0.12      19 1  unconfirmed data 7 -> group 9, SAP 3, 1 of 1 block\n",
            "     1.32     0.12      22 1  short data 2 -> group 9, 1 of 1 block\n",
            "     1.50     0.06      25 1  ACK 1 -> 2, N(S) 5\n",
            "     1.62     0.06      27 1  failed 1 -> 2, N(S) 5\n",
            "     1.74     0.12      29 1  selective repeat 1 -> 2, N(S) 5, 1 of 1 block\n",
            "     1.92     0.06      32 1  response 1 -> 2, N(S) 1\n",
            "     2.04     0.06      34 1  data 7 -> 5\n",
            "frames 36 seconds 2.16 calls 0 packets 9 controls 4 repeated 22\n",
        ],
    )
}

#[test]
fn lines_up_to_a_fault(rt: HostRuntime) -> Result<(), Fail> {
    for (file, count, out, err) in [
        // Of frame 5 slot 1 is there, and of slot 2 nothing.
        (
            LATE_CALLS,
            184,
            "     0.12     0.18       2 1  call, late, 3 places, 1 filled, end\n",
            "error: up.dmru: half frame at octet 184, frame 5, slot 2\n",
        ),
        ("444D524401000000", 8, "", "error: up.dmru: not an uplink\n"),
        (SCENE, 3, "", "error: up.dmru: cut record at octet 0\n"),
    ] {
        expect_of(&rt, file, count, all(LogForm::Lines, None), 1, &[out], err)?;
    }
    Ok(())
}

/// The names of the columns.
const NAMES: &str =
    "start,seconds,frame,slot,kind,from,to,group,options,late,bursts,places,filled,blocks,missing,wrong,checked,end,details\n";

#[test]
fn rows(rt: HostRuntime) -> Result<(), Fail> {
    let table = all(LogForm::Table, None);
    let wanted = [
        NAMES,
        "0.75,0.06,12,2,status,4,1,0,,,1,,,0,0,0,263,,\"port 1 -> 2, status 5\"\n",
        "0.00,0.96,0,1,group call,2,1,1,0,0,16,12,2,,,0,750,terminator,\n",
        "1.32,0.36,22,1,group call,3,1,1,128,1,6,6,0,,,0,128,lost,\n",
    ];
    expect(&rt, SCENE, table, &wanted)
}

#[test]
fn a_row_with_wrong_bits(rt: HostRuntime) -> Result<(), Fail> {
    let wanted = [
        NAMES,
        "0.00,0.06,0,1,CSBK,,,,,,1,,,,,21,263,,\"opcode 0, fid 0\"\n",
    ];
    expect(&rt, WRONG_BITS, all(LogForm::Table, None), &wanted)
}

#[test]
fn rows_of_a_gateway_at_a_time_of_day(rt: HostRuntime) -> Result<(), Fail> {
    let table = LogSettings {
        start: StartTime::read("2026-01-31T23:59:59Z"),
        ..all(LogForm::Table, Some(1))
    };
    let wanted = [
        NAMES,
        "2026-01-31T23:59:59.750Z,0.06,12,2,status,4,1,0,,,1,,,0,0,0,263,,\"port 1 -> 2, status 5\"\n",
        "2026-01-31T23:59:59.750Z,0.06,12,2,received status,4,1,0,,,,,,,,,,,\"4 octets: port 1 -> 2, status 5\"\n",
        "2026-01-31T23:59:59.000Z,0.96,0,1,group call,2,1,1,0,0,16,12,2,,,0,750,terminator,\n",
        "2026-02-01T00:00:00.320Z,0.36,22,1,group call,3,1,1,128,1,6,6,0,,,0,128,lost,\n",
    ];
    expect(&rt, SCENE, table, &wanted)
}

#[test]
fn rows_of_packets_and_control_blocks(rt: HostRuntime) -> Result<(), Fail> {
    let table = all(LogForm::Table, None);
    let wanted = [
        NAMES,
        "0.00,0.12,0,1,CSBK,2,9,1,,,2,,,,,0,526,,\"opcode 61, fid 0\"\n",
        "0.18,0.06,3,1,CSBK,2,7,0,,,1,,,,,0,263,,\"opcode 56, fid 0\"\n",
        "0.30,0.06,5,1,CSBK,,,,,,1,,,,,0,263,,\"opcode 4, fid 16\"\n",
        "0.42,0.12,7,1,MBC header,,,,,,2,,,,,0,526,,\n",
        "0.60,0.30,10,1,confirmed data,2,1,0,,,4,,,1,1,0,1052,,\"SAP 4, N(S) 6\"\n",
        "0.96,0.12,16,1,partial try,2,1,0,,,2,,,1,0,0,526,,\"SAP 4, N(S) 6\"\n",
        "1.14,0.12,19,1,unconfirmed data,7,9,1,,,2,,,1,0,0,526,,SAP 3\n",
        "1.32,0.12,22,1,short data,2,9,1,,,2,,,1,0,0,526,,\n",
        "1.50,0.06,25,1,ACK,1,2,0,,,1,,,0,0,0,263,,N(S) 5\n",
        "1.62,0.06,27,1,failed,1,2,0,,,1,,,0,0,0,263,,N(S) 5\n",
        "1.74,0.12,29,1,selective repeat,1,2,0,,,2,,,1,0,0,526,,N(S) 5\n",
        "1.92,0.06,32,1,response,1,2,0,,,1,,,0,0,0,263,,N(S) 1\n",
        "2.04,0.06,34,1,data,7,5,0,,,1,,,0,0,0,263,,\n",
    ];
    expect(&rt, PACKETS, table, &wanted)
}

#[test]
fn objects(rt: HostRuntime) -> Result<(), Fail> {
    let json = all(LogForm::Json, Some(1));
    expect(
        &rt,
        SCENE,
        json,
        &[
            "{\"start\":0.75,\"seconds\":0.06,\"frame\":12,\"slot\":2,\"kind\":\"status\",\"from\":4,\"to\":1,\"group\":false,\
            \"options\":null,\"late\":null,\"bursts\":1,\"places\":null,\"filled\":null,\"blocks\":0,\"missing\":0,\"wrong\":0,\
            \"checked\":263,\"end\":null,\"details\":\"port 1 -> 2, status 5\"}\n",
            "{\"start\":0.75,\"seconds\":0.06,\"frame\":12,\"slot\":2,\"kind\":\"received status\",\"from\":4,\"to\":1,\
            \"group\":false,\"options\":null,\"late\":null,\"bursts\":null,\"places\":null,\"filled\":null,\"blocks\":null,\
            \"missing\":null,\"wrong\":null,\"checked\":null,\"end\":null,\"details\":\"4 octets: port 1 -> 2, status 5\"}\n",
            "{\"start\":0.00,\"seconds\":0.96,\"frame\":0,\"slot\":1,\"kind\":\"group call\",\"from\":2,\"to\":1,\"group\":true,\
            \"options\":0,\"late\":false,\"bursts\":16,\"places\":12,\"filled\":2,\"blocks\":null,\"missing\":null,\"wrong\":0,\
            \"checked\":750,\"end\":\"terminator\",\"details\":null}\n",
            "{\"start\":1.32,\"seconds\":0.36,\"frame\":22,\"slot\":1,\"kind\":\"group call\",\"from\":3,\"to\":1,\"group\":true,\
            \"options\":128,\"late\":true,\"bursts\":6,\"places\":6,\"filled\":0,\"blocks\":null,\"missing\":null,\"wrong\":0,\
            \"checked\":128,\"end\":\"lost\",\"details\":null}\n",
            "{\"frames\":40,\"calls\":2,\"packets\":1,\"controls\":0,\"repeated\":23,\"received\":1}\n",
        ],
    )
}

#[test]
fn an_object_at_a_time_of_day(rt: HostRuntime) -> Result<(), Fail> {
    expect(
        &rt,
        WRONG_BITS,
        LogSettings {
            start: StartTime::read("1999-12-31T23:00:00.5-01:00"),
            ..all(LogForm::Json, None)
        },
        &[
            "{\"start\":\"2000-01-01T00:00:00.500Z\",\"seconds\":0.06,\"frame\":0,\"slot\":1,\"kind\":\"CSBK\",\"from\":null,\
            \"to\":null,\"group\":null,\"options\":null,\"late\":null,\"bursts\":1,\"places\":null,\"filled\":null,\"blocks\":null,\
            \"missing\":null,\"wrong\":21,\"checked\":263,\"end\":null,\"details\":\"opcode 0, fid 0\"}\n",
            "{\"frames\":1,\"calls\":0,\"packets\":0,\"controls\":1,\"repeated\":1}\n",
        ],
    )
}

#[test]
fn settings_out_of_their_range(rt: HostRuntime) -> Result<(), Fail> {
    let colour = LogSettings {
        colour: 16,
        ..all(LogForm::Lines, None)
    };
    for settings in [
        colour,
        all(LogForm::Lines, Some(0)),
        all(LogForm::Lines, Some(16_777_216)),
    ] {
        let told = "error: up.dmru: a setting is out of its range\n";
        expect_of(&rt, SCENE, usize::MAX, settings, 1, &[], told)?;
    }
    Ok(())
}

#[test]
fn wrong_bits(rt: HostRuntime) -> Result<(), Fail> {
    expect(
        &rt,
        WRONG_BITS,
        all(LogForm::Lines, None),
        &[
            "     0.00     0.06       0 1  CSBK opcode 0, fid 0  [wrong: 21 of 263 bits]\n",
            "frames 1 seconds 0.06 calls 0 packets 0 controls 1 repeated 1\n",
        ],
    )
}

#[test]
fn times_of_day(rt: HostRuntime) {
    assert!(rt; StartTime::read("2026-01-31T12:00:00Z").is_some());
    assert!(rt; StartTime::read("2026-01-31").is_none());
    assert!(rt; StartTime::read("").is_none());
    // The longest recording has to end in the year 9999.
    assert!(rt; StartTime::read("9999-12-30T00:00:00Z").is_some());
    assert!(rt; StartTime::read("9999-12-30T20:00:00Z").is_none());
}
