//! The texts and the numbers of the faults. The texts of files are tested where they are printed.
use dmr_csbk::CsbkFault;
use dmr_data::{BlockFault, HeaderFault, JoinFault};
use dmr_embedded::EmbedFault;
use dmr_ip::{ExpandFault, IpFault};
use dmr_link::LcFault;
use dmr_record::RecordFault;
use dmr_words::LineFault;
use std::alloc::Global;
use std::fmt::Display;

const CSBK: [(CsbkFault, &str); 2] = [
    (CsbkFault::Bptc, "no product word"),
    (CsbkFault::Crc, "wrong check"),
];

const EMBEDDED: [(EmbedFault, &str); 3] = [
    (EmbedFault::Row, "unreadable row"),
    (EmbedFault::Columns, "odd columns"),
    (EmbedFault::Checksum, "bad checksum"),
];

const LINK: [(LcFault, &str); 2] = [
    (LcFault::Bptc, "no product word"),
    (LcFault::Parity, "wrong parity"),
];

const HEADER: [(HeaderFault, &str); 3] = [
    (HeaderFault::Bptc, "no product word"),
    (HeaderFault::Crc, "wrong check"),
    (HeaderFault::Format, "unknown format"),
];

const BLOCK: [(BlockFault, &str); 3] = [
    (BlockFault::Bptc, "no product word"),
    (BlockFault::Crc9, "wrong check"),
    (BlockFault::Serial, "serial past the last block"),
];

const JOIN: [(JoinFault, &str); 3] = [
    (JoinFault::Short, "no block"),
    (JoinFault::Pad, "pad exceeds the octets"),
    (JoinFault::Crc32, "wrong check"),
];

const DATAGRAM: [(IpFault, &str); 8] = [
    (IpFault::Length, "bad length"),
    (IpFault::Version, "bad version"),
    (IpFault::Options, "header with options"),
    (IpFault::HeaderSum, "bad header checksum"),
    (IpFault::Fragment, "fragment"),
    (IpFault::Protocol, "not UDP"),
    (IpFault::UdpLength, "bad UDP length"),
    (IpFault::UdpSum, "bad UDP checksum"),
];

const EXPAND: [(ExpandFault, &str); 5] = [
    (ExpandFault::Short, "too short"),
    (ExpandFault::Opcode, "unknown opcode"),
    (ExpandFault::Address, "unknown address identifier"),
    (ExpandFault::Port, "unknown port identifier"),
    (ExpandFault::Long, "too long"),
];

const LINES: [(LineFault, &str); 3] = [
    (LineFault::TooLong, "too long"),
    (LineFault::TooMany, "too long"),
    (LineFault::Read, "read failed"),
];

/// Each fault has its text.
fn are_texts<T: Display>(alloc: Global, rows: &[(T, &str)]) -> bool {
    for (fault, text) in rows {
        match format!(in alloc; "{fault}") {
            Ok(printed) if printed.as_str() == *text => (),
            _ => return false,
        }
    }
    true
}

#[test]
fn texts(rt: HostRuntime) {
    let alloc = rt.alloc();
    assert!(rt; are_texts(alloc, &CSBK));
    assert!(rt; are_texts(alloc, &EMBEDDED));
    assert!(rt; are_texts(alloc, &LINK));
    assert!(rt; are_texts(alloc, &HEADER));
    assert!(rt; are_texts(alloc, &BLOCK));
    assert!(rt; are_texts(alloc, &JOIN));
    assert!(rt; are_texts(alloc, &DATAGRAM));
    assert!(rt; are_texts(alloc, &EXPAND));
    assert!(rt; are_texts(alloc, &LINES));
}

/// The numbers of the faults of a crate, in their order. Each row counts from 1 on.
const NUMBERS: [&[u8]; 10] = [
    &[CsbkFault::Bptc as u8, CsbkFault::Crc as u8],
    &[
        EmbedFault::Row as u8,
        EmbedFault::Columns as u8,
        EmbedFault::Checksum as u8,
    ],
    &[LcFault::Bptc as u8, LcFault::Parity as u8],
    &[
        HeaderFault::Bptc as u8,
        HeaderFault::Crc as u8,
        HeaderFault::Format as u8,
    ],
    &[
        BlockFault::Bptc as u8,
        BlockFault::Crc9 as u8,
        BlockFault::Serial as u8,
    ],
    &[
        JoinFault::Short as u8,
        JoinFault::Pad as u8,
        JoinFault::Crc32 as u8,
    ],
    &[
        IpFault::Length as u8,
        IpFault::Version as u8,
        IpFault::Options as u8,
        IpFault::HeaderSum as u8,
        IpFault::Protocol as u8,
        IpFault::UdpLength as u8,
        IpFault::UdpSum as u8,
        IpFault::Fragment as u8,
    ],
    &[
        ExpandFault::Short as u8,
        ExpandFault::Opcode as u8,
        ExpandFault::Address as u8,
        ExpandFault::Port as u8,
        ExpandFault::Long as u8,
    ],
    &[
        RecordFault::Magic as u8,
        RecordFault::Version as u8,
        RecordFault::CutRecord as u8,
        RecordFault::BadTag as u8,
        RecordFault::HalfFrame as u8,
        RecordFault::FrameOrder as u8,
        RecordFault::TooLong as u8,
        RecordFault::Read as u8,
        RecordFault::Write as u8,
    ],
    &[
        LineFault::TooLong as u8,
        LineFault::TooMany as u8,
        LineFault::Read as u8,
    ],
];

/// The numbers from 1 on, as many as a fault has at most.
const COUNT: [u8; 9] = [1, 2, 3, 4, 5, 6, 7, 8, 9];

#[test]
fn numbers(rt: HostRuntime) {
    for numbers in NUMBERS {
        assert!(rt; COUNT.starts_with(numbers), "{numbers:?}");
    }
}
