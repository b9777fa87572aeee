//! What a pcapng says of where its packets were heard.
ghost use Rattle.std.specs.Prelude.{◌≡◌, ◌≤◌, drop, length};
ghost use Rattle.dmr_capture.specs.Times.{base_of, counted_time};
ghost use Rattle.dmr_capture.specs.Options.{Says};

use crate::order::Order;

/// Where packets were heard.
#[derive(Clone, Copy, Debug, Default, Drop, PartialEq, Eq)]
pub struct Interface {
    /// The number of its link type.
    pub link: u16,
    /// How fine its times are: below 128 so many decimal digits behind the second, and else 128 and so many binary ones.
    pub resolution: u8,
}

/// The resolution of an interface that says none: microseconds.
const MICROSECONDS: u8 = 6;

/// The number of the option that says a resolution.
const RESOLUTION: u16 = 9;

/// The base of the digits of a resolution.
fn base_of(resolution: u8) -> u128
    ensures base { result ≡ base_of resolution }
{
    if resolution < 128 { 10 } else { 2 }
}

/// A count of the units of a resolution, as nanoseconds. What is finer is dropped.
pub(crate) fn counted_time(resolution: u8, count: u64) -> u128
    ensures time { result ≡ counted_time resolution count }
{
    let base = base_of(resolution);
    let mut time = u128::from(count) * 1_000_000_000;
    for _digit in 0..resolution % 128 {
        time /= base;
    }
    time
}

/// What stands behind so many octets.
fn behind(octets: &[u8], count: usize) -> &[u8]
    requires within { count ≤ length octets.now }
    ensures rest { result.now ≡ drop count octets.now }
{
    &octets[count..]
}

/// The resolution that the options of an interface say: that of the first option which has one.
pub(crate) fn resolution_said(order: Order, options: &[u8]) -> u8
    ensures said { Says order options.now result }
{
    let mut rest = options;
    while rest.len() >= 4 {
        let code = order.u16_at(rest, 0);
        let length = usize::from(order.u16_at(rest, 2));
        let whole = 4 + (length + 3) / 4 * 4;
        if code == 0 || rest.len() < whole {
            return MICROSECONDS;
        }
        if code == RESOLUTION && length == 1 {
            return rest[4];
        }
        rest = behind(rest, whole);
    }
    MICROSECONDS
}
