//! What is printed of logs as pages.
use crate::recordings::{PACKETS, SCENE};
use crate::tests::{are_pieces, are_same, is_text};
use dmr_log_forms::StartTime;
use dmr_log_page::{PageSettings, print_page};
use dmr_record::{FromRead, ToWrite};
use dmr_test_devices::FailsAt;
use std::alloc::{AllocError, Global};
use std::process::Abort;
use std::test::Fail;

/// A page of what a repeater of colour code 1 repeats, without a gateway.
const PLAIN: PageSettings = PageSettings {
    colour: 1,
    address: None,
    start: None,
};

/// An uplink: its head, so many silent frames, and these octets.
fn behind_silence(alloc: Global, frames: usize, octets: &[u8]) -> Result<Vec<u8>, AllocError> {
    let mut made = Vec::new(alloc);
    made.extend_from_slice(b"DMRU\x01\0\0\0")?;
    for _frame in 0..frames {
        made.extend_from_slice(b"\0\0")?;
    }
    made.extend_from_slice(octets)?;
    Ok(made)
}

/// A file: the head of an uplink, so many silent frames, and what stands behind the head of a file in digits.
fn later(rt: &impl AllocGlobal, frames: usize, file: &str) -> Result<Vec<u8>, Fail> {
    let octets = hex::decode(rt.alloc(), file.as_bytes())?;
    let made = behind_silence(rt.alloc(), frames, octets.get(8..).unwrap_or_default())?;
    Ok(made)
}

/// The page of a file of this name, which ends with this status and this on the second sink.
fn page_that_ends(
    rt: &(impl Abort + AllocGlobal),
    name: &str,
    file: &[u8],
    settings: &PageSettings,
    status: u8,
    err: &str,
) -> Vec<u8> {
    let alloc = rt.alloc();
    let mut source = FromRead::new(file);
    let mut output = ToWrite::new(Vec::new(alloc));
    let mut errors = ToWrite::new(Vec::new(alloc));
    let ended = print_page(alloc, name, settings, &mut source, &mut output, &mut errors);
    is_text(rt, "errors", errors.into_inner().as_slice(), err);
    are_same(rt, "status", &ended, &status);
    output.into_inner()
}

/// The page of a whole file behind so many silent frames.
fn page(
    rt: &(impl Abort + AllocGlobal),
    frames: usize,
    file: &str,
    settings: &PageSettings,
) -> Result<Vec<u8>, Fail> {
    let octets = later(rt, frames, file)?;
    Ok(page_that_ends(rt, "up.dmru", octets.as_slice(), settings, 0, ""))
}

/// What stands in a page behind its style.
fn behind_style(page: &[u8]) -> &str {
    let page = str::from_utf8(page).unwrap_or("</style>no text");
    let (_, shown) = page.split_once("</style>").unwrap_or_default();
    shown
}

/// The legend.
const LEGEND: &str = "<svg viewBox=\"0 0 1040 14\">
<rect x=\"64\" y=\"2\" width=\"10\" height=\"10\" fill=\"#173f6b\"/><text class=\"t\" x=\"78\" y=\"11\">header, terminator</text>
<rect x=\"198\" y=\"2\" width=\"10\" height=\"10\" fill=\"#2f6fb2\"/><text class=\"t\" x=\"212\" y=\"11\">voice</text>
<rect x=\"254\" y=\"2\" width=\"10\" height=\"10\" fill=\"#b9d3ee\"/><text class=\"t\" x=\"268\" y=\"11\">filled</text>
<rect x=\"316\" y=\"2\" width=\"10\" height=\"10\" fill=\"#2e8b57\"/><text class=\"t\" x=\"330\" y=\"11\">packet</text>
<rect x=\"378\" y=\"2\" width=\"10\" height=\"10\" fill=\"#bfe3cd\"/><text class=\"t\" x=\"392\" y=\"11\">lost block</text>
<rect x=\"464\" y=\"2\" width=\"10\" height=\"10\" fill=\"#c77700\"/><text class=\"t\" x=\"478\" y=\"11\">control</text>
<rect x=\"532\" y=\"2\" width=\"10\" height=\"10\" fill=\"#c9c9c9\"/><text class=\"t\" x=\"546\" y=\"11\">not repeated</text>
<rect x=\"630\" y=\"2\" width=\"10\" height=\"10\" fill=\"#b3261e\"/><text class=\"t\" x=\"644\" y=\"11\">unreadable</text></svg>
";

/// The ticks of the first row.
const TICKS: &str = "<path d=\"M64.0 14V94\" stroke=\"#e3e3e3\"/>
<text class=\"t\" x=\"64.0\" y=\"10\" text-anchor=\"middle\">0:00</text>
<path d=\"M224.0 14V94\" stroke=\"#e3e3e3\"/>
<text class=\"t\" x=\"224.0\" y=\"10\" text-anchor=\"middle\">0:05</text>
<path d=\"M384.0 14V94\" stroke=\"#e3e3e3\"/>
<text class=\"t\" x=\"384.0\" y=\"10\" text-anchor=\"middle\">0:10</text>
<path d=\"M544.0 14V94\" stroke=\"#e3e3e3\"/>
<text class=\"t\" x=\"544.0\" y=\"10\" text-anchor=\"middle\">0:15</text>
<path d=\"M704.0 14V94\" stroke=\"#e3e3e3\"/>
<text class=\"t\" x=\"704.0\" y=\"10\" text-anchor=\"middle\">0:20</text>
<path d=\"M864.0 14V94\" stroke=\"#e3e3e3\"/>
<text class=\"t\" x=\"864.0\" y=\"10\" text-anchor=\"middle\">0:25</text>
<path d=\"M1024.0 14V94\" stroke=\"#e3e3e3\"/>
<text class=\"t\" x=\"1024.0\" y=\"10\" text-anchor=\"middle\">0:30</text>
";

/// What the slots of the scene show. A bar begins at 64 and 1.92 for each frame in front of it.
const SLOTS: &str = "<text class=\"t\" x=\"8\" y=\"44\">slot 1</text>
<path d=\"M64 52H1024.0\" stroke=\"#d5d5d5\"/>
<rect x=\"64.0\" y=\"36\" width=\"5.8\" height=\"16\" fill=\"#173f6b\"/>
<rect x=\"69.8\" y=\"36\" width=\"13.4\" height=\"16\" fill=\"#2f6fb2\"/>
<rect x=\"83.2\" y=\"36\" width=\"3.8\" height=\"16\" fill=\"#b9d3ee\"/>
<rect x=\"87.0\" y=\"36\" width=\"5.8\" height=\"16\" fill=\"#2f6fb2\"/>
<rect x=\"92.8\" y=\"36\" width=\"1.9\" height=\"16\" fill=\"#173f6b\"/>
<rect x=\"102.4\" y=\"36\" width=\"3.8\" height=\"16\" fill=\"#c9c9c9\"/>
<rect x=\"106.2\" y=\"36\" width=\"11.5\" height=\"16\" fill=\"#2f6fb2\"/>
<text class=\"l\" x=\"64.0\" y=\"31\">2 → …</text>
<text class=\"l\" x=\"106.2\" y=\"31\">3 → TG 1</text>
<text class=\"t\" x=\"8\" y=\"86\">slot 2</text>
<path d=\"M64 94H1024.0\" stroke=\"#d5d5d5\"/>
<rect x=\"87.0\" y=\"78\" width=\"1.9\" height=\"16\" fill=\"#2e8b57\"/>
<text class=\"l\" x=\"87.0\" y=\"73\">status 4 → 1</text>
";

/// The head of a table.
const TABLE: &str =
    "<table><tr><th class=\"n\">start<th class=\"n\">slot<th>what<th class=\"n\">from<th class=\"n\">to\
    <th class=\"n\">seconds<th class=\"n\">there<th class=\"n\">wrong bits<th>end</tr>\n";

/// The rows of the scene, which begin in the first minute.
const STATUS: &str =
    "<tr><td class=\"n\">0:00.75<td class=\"n\">2<td>status<td class=\"n\">4<td class=\"n\">1<td class=\"n\">0.06\
    <td class=\"n\"><td class=\"n\">0 of 263<td></tr>\n";

const CALL: &str =
    "<tr><td class=\"n\">0:00.00<td class=\"n\">1<td>group call<td class=\"n\">2<td class=\"n\">1<td class=\"n\">0.96\
    <td class=\"n\">10 of 12<td class=\"n\">0 of 750<td>terminator</tr>\n";

const LATE_CALL: &str =
    "<tr><td class=\"n\">0:01.32<td class=\"n\">1<td>group call, late<td class=\"n\">3<td class=\"n\">1<td class=\"n\">0.36\
    <td class=\"n\">6 of 6<td class=\"n\">0 of 128<td>lost</tr>\n";

/// What is counted in the scene.
const COUNTS: &str = "2 calls, 1 packet, 0 rows of control blocks; 23 bursts repeated";

#[test]
fn a_whole_page(rt: HostRuntime) -> Result<(), Fail> {
    let printed = page(&rt, 0, SCENE, &PLAIN)?;
    let wanted = [
        "\n<h1>up.dmru</h1><p>uplink recording; colour code 1</p>\n",
        LEGEND,
        "<h2>minute 0</h2><svg viewBox=\"0 0 1040 106\">\n<g transform=\"translate(0,0)\">\n",
        TICKS,
        SLOTS,
        "</g>\n</svg>\n",
        TABLE,
        STATUS,
        CALL,
        LATE_CALL,
        "</table>\n<p>40 frames, 2.40 s; ",
        COUNTS,
        "</p>\n",
    ];
    are_pieces(&rt, behind_style(printed.as_slice()).as_bytes(), &wanted);
    Ok(())
}

#[test]
fn silence(rt: HostRuntime) -> Result<(), Fail> {
    let printed = page(&rt, 3001, "", &PLAIN)?;
    let wanted = [
        "\n<h1>up.dmru</h1><p>uplink recording; colour code 1</p>\n",
        LEGEND,
        "<p>3001 frames, 180.06 s; 0 calls, 0 packets, 0 rows of control blocks; 0 bursts repeated</p>\n",
    ];
    are_pieces(&rt, behind_style(printed.as_slice()).as_bytes(), &wanted);
    Ok(())
}

/// The page of an empty uplink of this name begins so, behind its style.
fn expect_name(rt: &(impl Abort + AllocGlobal), name: &str, shown: &str) {
    let printed = page_that_ends(rt, name, b"DMRU\x01\0\0\0", &PLAIN, 0, "");
    let page = behind_style(printed.as_slice());
    are_same(rt, name, &page.get(..shown.len()), &Some(shown));
}

#[test]
fn names_of_files(rt: HostRuntime) {
    for (name, shown) in [
        ("a&b <c>\t.dmru", "\n<h1>a&amp;b &lt;c&gt;?.dmru</h1>"),
        ("here/there/up.dmru", "\n<h1>up.dmru</h1>"),
        ("-", "\n<h1>standard input</h1>"),
    ] {
        expect_name(&rt, name, shown);
    }
}

/// That each of these texts stands in a part of a page.
fn expect_texts(rt: &impl Abort, part: &str, texts: &[&str]) {
    for text in texts {
        assert!(rt; part.contains(*text), "{text} in {part}");
    }
}

/// The parts of a page: what stands in front of its first minute, and each minute.
fn expect_minutes(rt: &impl Abort, page: &str, wanted: &[&[&str]]) {
    let mut minutes = page.split("<h2>minute ");
    let _head = minutes.next();
    for texts in wanted {
        expect_texts(rt, minutes.next().unwrap_or_default(), texts);
    }
    assert!(rt; minutes.next().is_none(), "one minute more");
}

#[test]
fn a_call_that_ends_with_a_minute(rt: HostRuntime) -> Result<(), Fail> {
    // The last frame of the first call is the last one of the minute.
    let printed = page(&rt, 984, SCENE, &PLAIN)?;
    expect_minutes(
        &rt,
        behind_style(printed.as_slice()),
        &[
            &[
                "0</h2><svg viewBox=\"0 0 1040 106\">\n<g transform=\"translate(0,0)\">\n",
                "<text class=\"t\" x=\"64.0\" y=\"10\" text-anchor=\"middle\">0:30</text>\n",
                "<text class=\"t\" x=\"1024.0\" y=\"10\" text-anchor=\"middle\">1:00</text>\n",
                // There are 500 - 484 frames up to the end of the row, which are 30.72: three letters, and one that stays free.
                "<text class=\"l\" x=\"993.3\" y=\"31\">2 …</text>\n",
                "<tr><td class=\"n\">0:59.79<td class=\"n\">2<td>status",
                "<tr><td class=\"n\">0:59.04<td class=\"n\">1<td>group call<",
            ],
            &[
                "1</h2><svg viewBox=\"0 0 1040 106\">\n",
                "<rect x=\"75.5\" y=\"36\" width=\"11.5\" height=\"16\" fill=\"#2f6fb2\"/>\n",
                "<text class=\"l\" x=\"75.5\" y=\"31\">3 → TG 1</text>\n",
                "<tr><td class=\"n\">1:00.36<td class=\"n\">1<td>group call, late",
            ],
        ],
    );
    Ok(())
}

#[test]
fn a_call_that_goes_on(rt: HostRuntime) -> Result<(), Fail> {
    // The second call begins three frames in front of the minute, where less than 26 is free.
    let printed = page(&rt, 975, SCENE, &PLAIN)?;
    expect_minutes(
        &rt,
        behind_style(printed.as_slice()),
        &[
            &[
                "width=\"5.8\" height=\"16\" fill=\"#2f6fb2\"/>\n\
                <text class=\"l\" x=\"976.0\" y=\"31\">2 → …</text>\n<text class=\"t\"",
                "<td>terminator</tr>\n</table>\n",
            ],
            &[
                "<rect x=\"64.0\" y=\"36\" width=\"5.8\" height=\"16\" fill=\"#2f6fb2\"/>\n",
                "<text class=\"l\" x=\"64.0\" y=\"31\">… 3 → TG 1</text>\n",
                "<tr><td class=\"n\">0:59.82<td class=\"n\">1<td>group call, late",
            ],
        ],
    );
    Ok(())
}

#[test]
fn packets_and_control_blocks(rt: HostRuntime) -> Result<(), Fail> {
    let printed = page(&rt, 0, PACKETS, &PLAIN)?;
    expect_minutes(
        &rt,
        behind_style(printed.as_slice()),
        &[&[
            // A preamble in front of its packet is of it. One of its two blocks is lost.
            "<rect x=\"83.2\" y=\"36\" width=\"7.7\" height=\"16\" fill=\"#2e8b57\"/>\n\
            <rect x=\"90.9\" y=\"36\" width=\"1.9\" height=\"16\" fill=\"#bfe3cd\"/>\n",
            "<td>preamble<td class=\"n\">2<td class=\"n\">TG 9<td class=\"n\">0.12<td class=\"n\"><td class=\"n\">",
            "<td>CSBK opcode 4, fid 16<td class=\"n\"><td class=\"n\"><td class=\"n\">0.06<td class=\"n\"><td class=\"n\">",
            "<td>confirmed data<td class=\"n\">2<td class=\"n\">1<td class=\"n\">0.30<td class=\"n\">1 of 2<td class=\"n\">",
            // There is room for the last label alone.
            "/>\n<text class=\"l\" x=\"129.3\" y=\"31\">data 7 → 5</text>\n<text class=\"t\" x=\"8\" y=\"86\">slot 2</text>\n",
        ]],
    );
    Ok(())
}

#[test]
fn times_of_day(rt: HostRuntime) -> Result<(), Fail> {
    let settings = PageSettings {
        address: Some(1),
        start: StartTime::read("2026-01-31T23:59:59Z"),
        ..PLAIN
    };
    let printed = page(&rt, 0, SCENE, &settings)?;
    let head = "<p>uplink recording, 2026-01-31 23:59:59 UTC; colour code 1; gateway 1</p>\n";
    let end = "; 23 bursts repeated; 1 record received</p>\n";
    let shown = behind_style(printed.as_slice());
    expect_texts(&rt, shown, &[head, end]);
    expect_minutes(
        &rt,
        shown,
        &[&[
            "0, 2026-01-31 23:59:59 UTC</h2>",
            "text-anchor=\"middle\">00:00:04</text>\n",
            "<tr><td class=\"n\">23:59:59.75<td class=\"n\">2<td>received status<td class=\"n\">4<td class=\"n\">1\
            <td class=\"n\">0.06<td class=\"n\"><td class=\"n\"><td></tr>\n",
            "<tr><td class=\"n\">00:00:00.32<td class=\"n\">1<td>group call, late",
        ]],
    );
    Ok(())
}

#[test]
fn a_page_up_to_a_fault(rt: HostRuntime) -> Result<(), Fail> {
    let whole = later(&rt, 0, SCENE)?;
    // Of frame 5 slot 1 is there, and of slot 2 nothing.
    let cut = whole.as_slice().get(..151).unwrap_or_default();
    let fault = "error: up.dmru: half frame at octet 151, frame 5, slot 2\n";
    let printed = page_that_ends(&rt, "up.dmru", cut, &PLAIN, 1, fault);
    let shown = behind_style(printed.as_slice());
    expect_texts(&rt, shown, &["<td>end</tr>\n</table>\n"]);
    assert!(rt; !shown.contains("5 frames"));
    Ok(())
}

/// A file has no page with these settings, and this is told.
fn expect_no_page(
    rt: &(impl Abort + AllocGlobal),
    file: &[u8],
    settings: &PageSettings,
    told: &str,
) {
    let printed = page_that_ends(rt, "up.dmru", file, settings, 1, told);
    are_same(rt, "page", &behind_style(printed.as_slice()), &"");
}

#[test]
fn no_page_of_a_downlink(rt: HostRuntime) {
    let told = "error: up.dmru: not an uplink\n";
    expect_no_page(&rt, b"DMRD\x01\0\0\0", &PLAIN, told);
}

#[test]
fn no_page_with_a_setting_out_of_its_range(rt: HostRuntime) -> Result<(), Fail> {
    let settings = PageSettings {
        colour: 16,
        ..PLAIN
    };
    let told = "error: up.dmru: a setting is out of its range\n";
    let file = later(&rt, 0, SCENE)?;
    expect_no_page(&rt, file.as_slice(), &settings, told);
    Ok(())
}

/// The page of a file, whose sink fails at this call, ends with this status, and nothing is told.
fn expect_failure(rt: &(impl Abort + AllocGlobal), file: &[u8], call: u64, status: u8) {
    let alloc = rt.alloc();
    let mut source = FromRead::new(file);
    let mut output = FailsAt::new(ToWrite::new(Vec::new(alloc)), call);
    let mut errors = ToWrite::new(Vec::new(alloc));
    let ended = print_page(
        alloc,
        "up.dmru",
        &PLAIN,
        &mut source,
        &mut output,
        &mut errors,
    );
    assert_eq!(rt; ended, status, "{call}");
    is_text(rt, "errors", errors.into_inner().as_slice(), "");
}

#[test]
fn a_sink_that_fails(rt: HostRuntime) -> Result<(), Fail> {
    let file = later(&rt, 0, SCENE)?;
    // A head, the picture, three rows, the end of the table, and what was counted: seven pieces.
    for (call, status) in [(0, 1), (1, 1), (2, 1), (4, 1), (5, 1), (6, 1), (7, 0)] {
        expect_failure(&rt, file.as_slice(), call, status);
    }
    Ok(())
}
