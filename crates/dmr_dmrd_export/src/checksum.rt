//! The checksum of a datagram of UDP.
ghost use Rattle.std.specs.Prelude.{◌≡◌, fold, length};
ghost use Rattle.dmr_ip.specs.Checksum.{words, plus};
ghost use Rattle.dmr_ip.specs.Contents.{sent_checksum, udp_checksum};

/// What the checksum covers in front of the payload: the addresses 192.0.2.1 and 192.0.2.2, the protocol, and twice the length,
/// with both ports, 62031, and a checksum of zero. RFC 768.
const COVERED: [u8; 20] = [
    192, 0, 2, 1, 192, 0, 2, 2, 0, 17, 0, 61, 0xf2, 0x4f, 0xf2, 0x4f, 0, 61, 0, 0,
];

/// The sum of two words in one's complement: what is carried out of the highest bit is added at the lowest. RFC 1071.
#[tactic(auto, unfolding(dmr_ip::specs::Checksum::plus))]
fn plus(a: u16, b: u16) -> u16
    ensures value { result ≡ plus a b }
{
    let sum = u32::from(a) + u32::from(b);
    (sum % 0x1_0000 + sum / 0x1_0000) as u16
}

/// A sum to which the words of octets are added. An odd octet at the end is the high one of its word.
fn add_words(start: u16, octets: &[u8]) -> u16
    ensures value { result ≡ fold plus start (words octets.now) }
{
    let mut sum = start;
    let mut rest = octets;
    while let [high, low, more @ ..] = rest {
        sum = plus(sum, u16::from_be_bytes([*high, *low]));
        rest = more;
    }
    match rest {
        [high] => plus(sum, u16::from_be_bytes([*high, 0])),
        _ => sum,
    }
}

/// A computed checksum of 0 is sent as FFFF, since 0 says that there is none.
fn sent_checksum(sum: u16) -> u16
    ensures value { result ≡ sent_checksum sum }
{
    if sum == 0 { 0xffff } else { sum }
}

/// The checksum of the datagram with this payload, from 192.0.2.1 to 192.0.2.2 and between ports 62031.
pub(crate) fn checksum_of(payload: &[u8; 53]) -> u16
    ensures value { result ≡ udp_checksum 61 0xC0000201 0xC0000202 62031 62031 payload.now }
{
    let head = add_words(0, &COVERED);
    sent_checksum(0xffff - add_words(head, payload))
}
