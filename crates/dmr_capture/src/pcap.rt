//! The head and the records of a pcap.
ghost use Rattle.std.specs.Prelude.{◌≡◌, ◌≢◌, ◌≤◌, length, take, false, IfSome, IfNone, IfOk, IfErr};
ghost use Rattle.dmr_capture.specs.Times.{pcap_time};
ghost use Rattle.dmr_capture.specs.Records.{HasPcapMagic, IsPcapHead, pcap_magic};
ghost use Rattle.dmr_capture.specs.Reading.{BeginsNone, ShowsBeginFault, is_of_capture_end, is_capture_read};
ghost use Rattle.dmr_capture.specs.Begins.{HasMagic};

use crate::block::SECTION;
use crate::fault::CaptureFault;
use crate::link::Link;
use crate::order::Order;

/// What the fractions of seconds count in.
#[derive(Clone, Copy, Debug, Drop, PartialEq, Eq)]
pub enum Fraction {
    /// Microseconds.
    Micro,
    /// Nanoseconds.
    Nano,
}

/// How many octets the head of a pcap has.
pub(crate) const PCAP_HEAD: usize = 24;

/// What a pcap in microseconds begins with.
const MICRO: u32 = 0xa1b2_c3d4;

/// What a pcap in nanoseconds begins with.
const NANO: u32 = 0xa1b2_3c4d;

/// What a capture is, by its first four octets.
#[derive(Clone, Copy, Debug, Drop, PartialEq, Eq)]
pub(crate) enum Magic {
    /// A pcap, in this order of octets, whose times count in this fraction.
    OfPcap { order: Order, fraction: Fraction },
    /// A pcapng.
    OfPcapng,
}

/// What times of a pcap with this magic count in, where it is one.
fn fraction_of(magic: u32) -> Option<Fraction>
    ensures some { IfSome result (λ fraction. magic ≡ pcap_magic fraction) }
    ensures none { IfNone result ((fraction : Fraction) → magic ≢ pcap_magic fraction) }
{
    match magic {
        MICRO => Some(Fraction::Micro),
        NANO => Some(Fraction::Nano),
        _ => None,
    }
}

/// What a capture with these first four octets is, where it is one.
pub(crate) fn magic_of(octets: &[u8]) -> Option<Magic>
    requires four { length octets.now ≡ 4 }
    ensures some { IfSome result (λ magic. HasMagic octets.now magic) }
    ensures none { IfNone result (BeginsNone octets.now) }
{
    if octets[..4] == SECTION[..] {
        return Some(Magic::OfPcapng);
    }
    if let Some(fraction) = fraction_of(Order::Big.u32_at(octets, 0)) {
        let order = Order::Big;
        return Some(Magic::OfPcap { order, fraction });
    }
    if let Some(fraction) = fraction_of(Order::Little.u32_at(octets, 0)) {
        let order = Order::Little;
        return Some(Magic::OfPcap { order, fraction });
    }
    None
}

/// The link that the head of a pcap says, whose magic was found.
fn link_of_head(head: &[u8], order: Order, fraction: Fraction) -> Result<Link, CaptureFault>
    requires whole { length head.now ≡ 24 }
    requires magic { HasPcapMagic head.now order fraction }
    ensures head { IfOk result (λ link. IsPcapHead head.now order fraction link) }
    ensures fault { IfErr result (λ e. ShowsBeginFault e head.now) }
    ensures text { IfErr result (λ e. is_of_capture_end e ≡ false) }
    ensures read { IfErr result (λ e. is_capture_read e ≡ false) }
{
    let is_version_24 = order.u16_at(head, 4) == 2 && order.u16_at(head, 6) == 4;
    if !is_version_24 {
        return Err(CaptureFault::NoCapture);
    }
    let number = order.u32_at(head, 20);
    match Link::of_number(number) {
        Some(link) => Ok(link),
        None => Err(CaptureFault::LinkType { link: number }),
    }
}

/// The link that the head of a pcap says, whose magic was found. The head stands at the front of these octets.
pub(crate) fn link_said(
    octets: &[u8],
    order: Order,
    fraction: Fraction,
) -> Result<Link, CaptureFault>
    requires whole { 24 ≤ length octets.now }
    requires magic { HasPcapMagic (take 24 octets.now) order fraction }
    ensures head { IfOk result (λ link. IsPcapHead (take 24 octets.now) order fraction link) }
    ensures fault { IfErr result (λ e. ShowsBeginFault e (take 24 octets.now)) }
    ensures text { IfErr result (λ e. is_of_capture_end e ≡ false) }
    ensures read { IfErr result (λ e. is_capture_read e ≡ false) }
{
    link_of_head(&octets[..PCAP_HEAD], order, fraction)
}

/// The time of a packet, by its seconds and their fraction, in nanoseconds.
pub(crate) fn time_in(fraction: Fraction, seconds: u32, part: u32) -> u128
    ensures time { result ≡ pcap_time fraction seconds part }
{
    let unit = match fraction {
        Fraction::Micro => 1_000,
        Fraction::Nano => 1,
    };
    u128::from(seconds) * 1_000_000_000 + u128::from(part) * unit
}
