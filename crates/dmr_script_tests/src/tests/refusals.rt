//! What is said of lines that are refused.
use super::{are_refused, are_same, is_refused, script_of};
use dmr_record::FromRead;
use dmr_script::{NumberedStatement, Refusal, RefusedLine, Script, Slot, Statement, read_script};
use dmr_test_devices::{FailsAt, OneByOne};
use std::alloc::{AllocError, Global};
use std::process::Abort;
use std::test::Fail;

/// That each of these lines, behind `slot 1`, is refused for what stands beside it.
fn are_refused_behind_slot(
    rt: &impl Abort,
    alloc: Global,
    rows: &[(&str, &str)],
) -> Result<(), AllocError> {
    for (line, expected) in rows {
        let text = format!(in alloc; "slot 1\n{line}\n")?;
        let expected = format!(in alloc; "line 2: {expected}")?;
        is_refused(rt, alloc, text.as_str(), expected.as_str())?;
    }
    Ok(())
}

#[test]
fn grammar(rt: HostRuntime) -> Result<(), Fail> {
    are_refused_behind_slot(
        &rt,
        rt.alloc(),
        &[
            ("grup call 2 -> 1: H", "unknown word 'grup'"),
            ("foreign 2 grup", "unknown word 'grup'"),
            ("group call 2 -> 1, urgent: H", "unknown word 'urgent'"),
            (
                "opcode 0, fid 0, 0000000000000000, first",
                "unknown word 'first'",
            ),
            (
                "group call 2 -> 16777216: H",
                "expected an address from 0 to 16777215, found '16777216'",
            ),
            (
                "group call 02 -> 1: H",
                "expected an address from 0 to 16777215, found '02'",
            ),
            (
                "group call 2 ->",
                "expected an address from 0 to 16777215, found the end of the line",
            ),
            ("group call 2 1: H", "expected '->', found '1'"),
            ("group 2 -> 1: H", "expected 'call', found '2'"),
            ("slot 3", "expected a number from 1 to 2, found '3'"),
            ("slot 1 2", "expected the end of the line, found '2'"),
            (
                "silence 4294967296",
                "expected a number from 0 to 4294967295, found '4294967296'",
            ),
            (
                "at -1",
                "expected a number from 0 to 4294967295, found '-1'",
            ),
            (
                "foreign 16 group call 2 -> 1: H",
                "expected a number from 0 to 15, found '16'",
            ),
            (
                "foreign 2",
                "expected a transmission, found the end of the line",
            ),
            ("\"slot\" 2", "expected a statement, found 'slot'"),
            ("terminator 5", "expected a link control, found '5'"),
            (
                "opcode 64, fid 0, 0000000000000000",
                "expected a number from 0 to 63, found '64'",
            ),
            (
                "opcode 0, fid 0, 000000000000000",
                "expected 16 hexadecimal digits, found '000000000000000'",
            ),
            (
                "opcode 0, fid 0, 000000000000000g",
                "expected 16 hexadecimal digits, found '000000000000000g'",
            ),
            (
                "rate 1 1000000000000000000000000000000000000000000000008F",
                "expected 49 hexadecimal digits, found '10000000000000000000'",
            ),
            ("rate 2/3 00", "expected '1/2', '3/4' or '1', found '2/3'"),
            (
                "unconfirmed 2 -> 1, SAP 16, octets 00",
                "expected a number from 0 to 15, found '16'",
            ),
            (
                "confirmed 2 -> 1, N(S) 8, octets 00",
                "expected a number from 0 to 7, found '8'",
            ),
            (
                "confirmed 2 -> 1, TCP",
                "expected 'UDP' or 'octets', found 'TCP'",
            ),
            (
                "confirmed 2 -> 1, UDP 65536 -> 1",
                "expected a number from 0 to 65535, found '65536'",
            ),
            (
                "confirmed 2 -> 1, octets 0",
                "expected hexadecimal digits in pairs, or '-', found '0'",
            ),
            (
                "confirmed 2 -> 1, UDP 1 -> 2, x: D",
                "expected hexadecimal digits in pairs, '-' or a text in quotes, found 'x'",
            ),
            (
                "status 2 -> 1, port 8 -> 0, status 5",
                "expected a number from 0 to 7, found '8'",
            ),
            (
                "status 2 -> 1, port 1 -> 0, status 1024",
                "expected a number from 0 to 1023, found '1024'",
            ),
            (
                "short data 2 -> 1, format 64, octets 00",
                "expected a number from 0 to 63, found '64'",
            ),
            (
                "partial 127",
                "expected a number from 0 to 126, found '127'",
            ),
            (
                "selective repeat 2 -> 1, N(S) 0, wanted 1 of 128",
                "expected a number from 1 to 127, found '128'",
            ),
            (
                "group call 2 -> 1, carrying nothing: H",
                "expected 'own', 'none', 'alias' or a link control, found 'nothing'",
            ),
            (
                "group call 2 -> 1, carrying alias \"ABCDEFGHIJKLMNOPQRSTUVWXYZ##\": H",
                "expected a text of at most 27 letters in quotes, found 'ABCDEFGHIJKLMNOPQRST'",
            ),
            (
                "group call 2 -> 1, priority 4: H",
                "expected a number from 0 to 3, found '4'",
            ),
            (
                "send at 5, UDP 12.0.0.256:1 -> 12.0.0.2:1",
                "expected an address and a port, as 12.0.0.1:5016, found '12.0.0.256:1'",
            ),
            (
                "send at 5, octets 00: D",
                "expected the end of the line, found ':'",
            ),
            (
                "terminator group call 2 -> 1: T",
                "expected the end of the line, found ':'",
            ),
            (
                "group call 2 -> 1 H",
                "expected ':' or the end of the line, found 'H'",
            ),
            ("confirmed 2 -> 1, UDP 1 -> 2, \"hi", "can't read '\"hi'"),
            ("confirmed 2 -> 1, UDP 1 -> 2, \"h\ti\"", "can't read 'h?i'"),
            ("gr\u{fc}p", "unknown word 'gr??p'"),
        ],
    )?;
    Ok(())
}

/// Why a call without a shape is refused.
const NO_SHAPE: &str = "a call has a shape, as in H ABCDEF T";

/// Why letters that are no call are refused.
const CALL_LETTERS: &str = "a call is headers, places and terminators, as in H ABCDEF T";

/// Why letters that are no packet are refused.
const PACKET_LETTERS: &str = "a packet is CSBKs, a header and blocks, as in ccDbb";

#[test]
fn shapes(rt: HostRuntime) -> Result<(), Fail> {
    are_refused_behind_slot(
        &rt,
        rt.alloc(),
        &[
            ("group call 2 -> 1", NO_SHAPE),
            ("group call 2 -> 1:", NO_SHAPE),
            ("group call 2 -> 1: T", CALL_LETTERS),
            ("group call 2 -> 1: EF", CALL_LETTERS),
            ("group call 2 -> 1: PHA", CALL_LETTERS),
            ("group call 2 -> 1: HTA", CALL_LETTERS),
            ("group call 2 -> 1: H ABH", CALL_LETTERS),
            ("group call 2 -> 1: H . T", CALL_LETTERS),
            ("group call 2 -> 1: H Ab", CALL_LETTERS),
            ("status 2 -> 1, port 1 -> 2, status 5: c", PACKET_LETTERS),
            ("status 2 -> 1, port 1 -> 2, status 5:", PACKET_LETTERS),
            ("status 2 -> 1, port 1 -> 2, status 5: Dc", PACKET_LETTERS),
            (
                "status 2 -> 1, port 1 -> 2, status 5: 256*c D",
                PACKET_LETTERS,
            ),
            (
                "opcode 0, fid 0, 0000000000000000: c",
                "a control block has no shape",
            ),
            ("group call 2 -> 1: H XYZ", "'XYZ' is no shape"),
            ("group call 2 -> 1: H*A", "'H*A' is no shape"),
            ("group call 2 -> 1: 0*A", "'0*A' is no shape"),
            ("group call 2 -> 1: 3*", "'3*' is no shape"),
            ("group call 2 -> 1: H, A", "',' is no shape"),
            (
                "group call 2 -> 1: H ABDDEF T",
                "letter 3 of the voice is C or '.', and not D",
            ),
            (
                "group call 2 -> 1: H BCDEF",
                "letter 1 of the voice is A or '.', and not B",
            ),
            (
                "group call 2 -> 1: EE ABC",
                "letter 2 of the voice is F or '.', and not E",
            ),
            (
                "group call 2 -> 1: EF ABD",
                "letter 5 of the voice is C or '.', and not D",
            ),
            (
                "group call 2 -> 1: H......ABCDEF T",
                "more than five silences between header and voice",
            ),
            (
                "group call 2 -> 1: ......A",
                "more than five slots in front of the first A",
            ),
            (
                "group call 2 -> 1: H A..... .BCDEF",
                "six absent places in a row",
            ),
            ("group call 2 -> 1: H A......", "six absent places in a row"),
            (
                "group call 2 -> 1: A.....A",
                "none of the five places behind the first A is there",
            ),
            (
                "group call 2 -> 1: EFA",
                "none of the five places behind the first A is there",
            ),
            (
                "group call 2 -> 1: ..ABCDEF ABC T",
                "a terminator stands in the place of an A",
            ),
            ("group call 2 -> 1: H AB.", "the last place is absent"),
            (
                "group call 2 -> 1: 174763*ABCDEF",
                "too long: more than 1048576 frames",
            ),
            (
                "group call 2 -> 1: H 1048576*T",
                "too long: more than 1048576 frames",
            ),
        ],
    )?;
    Ok(())
}

#[test]
fn packets(rt: HostRuntime) -> Result<(), Fail> {
    are_refused_behind_slot(
        &rt,
        rt.alloc(),
        &[
            (
                "confirmed 2 -> 1, UDP 5018 -> 5016, \"hi\": D bb",
                "2 blocks in the shape, 4 in the packet",
            ),
            (
                "status 2 -> 1, port 1 -> 2, status 5: D 200*b",
                "200 blocks in the shape, 0 in the packet",
            ),
            ("partial 2 4: D b", "1 blocks in the shape, 2 in the packet"),
            ("full: D 128*b", "a packet of more than 127 blocks"),
            (
                "selective repeat 2 -> 1, N(S) 0, wanted 1 5 of 5",
                "a block past the packet",
            ),
        ],
    )?;
    Ok(())
}

/// Why a silence at an end is refused.
const ENDS: &str = "of another colour code it begins and ends with a burst";

/// Why a voice sync without an EMB is refused.
const SYNC: &str = "behind a voice sync of another colour code an EMB stands within five slots";

#[test]
fn another_colour_code(rt: HostRuntime) -> Result<(), Fail> {
    are_refused_behind_slot(
        &rt,
        rt.alloc(),
        &[
            (
                "foreign 1 group call 2 -> 1: H",
                "colour code 1 is the own one",
            ),
            ("foreign 2 group call 2 -> 1: HA", SYNC),
            ("foreign 2 group call 2 -> 1: HA.....T", SYNC),
            ("foreign 2 group call 2 -> 1: HABCDEFA.....ABC", SYNC),
            ("foreign 2 group call 2 -> 1: .FAB", ENDS),
            ("foreign 2 partial 1 2: Db.", ENDS),
        ],
    )?;
    Ok(())
}

/// Why a line in front of the first slot is refused.
const NO_SLOT: &str = "line 1: a slot has to be named first";

#[test]
fn order(rt: HostRuntime) -> Result<(), Fail> {
    are_refused(
        &rt,
        rt.alloc(),
        &[
            ("silence 4", NO_SLOT),
            ("at 4", NO_SLOT),
            ("status 3 -> 1, port 1 -> 2, status 5", NO_SLOT),
            ("send at 4, octets 00", NO_SLOT),
            (
                "silence x",
                "line 1: expected a number from 0 to 4294967295, found 'x'",
            ),
            (
                "slot 1\n\ncolour 2",
                "line 3: the colour code stands in front of the first slot",
            ),
            (
                "colour 2\ncolour 3\nslot 1\nforeign 3 status 3 -> 1, port 1 -> 2, status 5",
                "line 4: colour code 3 is the own one",
            ),
            (
                "slot 1\nframes 5\nframes 5\n",
                "line 3: the number of frames stands once",
            ),
        ],
    )?;
    Ok(())
}

#[test]
fn first_refused_line(rt: HostRuntime) -> Result<(), Fail> {
    let alloc = rt.alloc();
    let text = "slot 1\nframes 1\ngrup\ncolour x\n";
    is_refused(&rt, alloc, text, "line 3: unknown word 'grup'")?;
    // The statements in front of it are there.
    let script = script_of(alloc, text)?;
    are_same(&rt, text, &script.statements.len(), &2);
    Ok(())
}

/// What a text of a packet of so many octets behind these words is refused for.
fn of_octets(
    rt: &impl Abort,
    alloc: Global,
    front: &str,
    octets: usize,
    expected: &str,
) -> Result<(), AllocError> {
    let mut text = format!(in alloc; "slot 1\n{front}")?;
    for _octet in 0..octets {
        text.push_str("00")?;
    }
    is_refused(rt, alloc, text.as_str(), expected)
}

/// That a packet behind these words has at most so many octets, and what it is refused for where it has one more.
fn has_at_most(
    rt: &impl Abort,
    alloc: Global,
    front: &str,
    octets: u16,
    expected: &str,
) -> Result<(), AllocError> {
    let octets = usize::from(octets);
    of_octets(rt, alloc, front, octets, "nothing")?;
    of_octets(rt, alloc, front, octets + 1, expected)
}

#[test]
fn greatest_lengths(rt: HostRuntime) -> Result<(), Fail> {
    let rows = [
        // 127 blocks of ten octets, four of them the check.
        (
            "confirmed 2 -> 1, octets ",
            1266,
            "line 2: a packet of more than 127 blocks",
        ),
        // 63 blocks of twelve octets, four of them the check.
        (
            "short data 2 -> 1, format 0, octets ",
            752,
            "line 2: short data of more than 63 blocks",
        ),
        // A datagram of 1,400 octets, 28 of them headers.
        (
            "unconfirmed 2 -> 1, UDP 1 -> 2, ",
            1372,
            "line 2: expected at most 1372 octets of data, found '00000000000000000000'",
        ),
        // A line of 65,536 octets: 14 of them in front of the digits.
        (
            "send at 0, octets ",
            32_759,
            "line 2: too long: more than 65536 octets",
        ),
    ];
    for (front, octets, expected) in rows {
        has_at_most(&rt, rt.alloc(), front, octets, expected)?;
    }
    Ok(())
}

/// What is read from a source that fails once so many calls are behind it.
fn script_until(alloc: Global, calls: u64) -> Result<Script, AllocError> {
    let mut source = FailsAt::new(FromRead::new("slot 1\nsil".as_bytes()), calls);
    read_script(alloc, &mut source)
}

/// That reading failed in this line.
fn failed_in(rt: &impl Abort, script: &Script, line: u64) {
    let refused = RefusedLine {
        line,
        refusal: Refusal::Read,
    };
    are_same(rt, "refused", &script.refused, &Some(refused));
}

#[test]
fn source_that_fails_at_once(rt: HostRuntime) -> Result<(), Fail> {
    let script = script_until(rt.alloc(), 0)?;
    failed_in(&rt, &script, 1);
    assert!(rt; script.statements.is_empty());
    Ok(())
}

/// That the first slot was named, in the first line, and nothing more was said.
fn names_slot_1(rt: &impl Abort, script: &Script) {
    let slot = NumberedStatement {
        line: 1,
        statement: Statement::Slot(Slot::One),
    };
    are_same(rt, "last", &script.statements.last(), &Some(&slot));
    are_same(rt, "count", &script.statements.len(), &1);
}

#[test]
fn source_that_fails_at_the_end(rt: HostRuntime) -> Result<(), Fail> {
    let script = script_until(rt.alloc(), 1)?;
    failed_in(&rt, &script, 2);
    names_slot_1(&rt, &script);
    Ok(())
}

#[test]
fn octet_by_octet(rt: HostRuntime) -> Result<(), Fail> {
    let text = "slot 1\nstatus 3 -> 1, port 1 -> 2, status 5\ngrup";
    let whole = script_of(rt.alloc(), text)?;
    let script = read_script(rt.alloc(), &mut OneByOne::new(text.as_bytes()))?;
    are_same(&rt, text, &script, &whole);
    are_same(&rt, text, &script.statements.len(), &2);
    Ok(())
}
