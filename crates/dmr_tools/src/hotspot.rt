//! What the options of captures of hotspots ask for.
ghost use Rattle.std.specs.Prelude.{◌≡◌, IfSome, codes};
ghost use Rattle.clap.specs.Words.{found_of};
ghost use Rattle.dmr_options.specs.Found.{IsGivenBy, IsNumberOf};
ghost use Rattle.dmr_tools.specs.Hotspot as spec;

use crate::datagrams::start_of;
use clap::ArgMatches;
use dmr_dmrd::{ImportSettings, Ports};
use dmr_dmrd_export::ExportSettings;
use dmr_options::flag_of;

/// The port to which packets go, which has a default.
fn port_of(import: &ArgMatches<'_>) -> u16
    ensures number { IsNumberOf 16 (found_of import.now) (codes "port") result }
{
    import.get_one::<u16>("port").unwrap_or(0)
}

/// The port from which they come, where it is given.
fn from_port_of(import: &ArgMatches<'_>) -> Option<u16>
    ensures number { IsGivenBy 16 (found_of import.now) (codes "from-port") result }
{
    import.get_one::<u16>("from-port")
}

/// The repeater whose packets are taken, where it is given.
fn repeater_of(import: &ArgMatches<'_>) -> Option<u32>
    ensures number { IsGivenBy 32 (found_of import.now) (codes "repeater") result }
{
    import.get_one::<u32>("repeater")
}

/// Which way the packets go: from a port where one is given, and else to the other.
fn ports_by(from: Option<u16>, to: u16) -> Ports
    ensures value { result ≡ spec.ports_by from to }
{
    match from {
        Some(from) => Ports::From(from),
        None => Ports::To(to),
    }
}

/// Which way the packets go that a command line asks for.
fn ports_of(import: &ArgMatches<'_>) -> Ports
    ensures ports { spec.ArePortsOf (found_of import.now) result }
{
    ports_by(from_port_of(import), port_of(import))
}

/// Which packets of a capture are to be taken, and how they are recorded.
pub(crate) fn hotspot_settings_of(import: &ArgMatches<'_>) -> ImportSettings
    ensures settings { spec.AreHotspotSettings (found_of import.now) result }
{
    ImportSettings {
        ports: ports_of(import),
        repeater: repeater_of(import),
        as_uplink: flag_of(import, "as-uplink"),
    }
}

/// The number of the repeater that packets name, which has a default.
fn own_number_of(export: &ArgMatches<'_>) -> u32
    ensures number { IsNumberOf 32 (found_of export.now) (codes "repeater") result }
{
    export.get_one::<u32>("repeater").unwrap_or(0)
}

/// How a downlink is to be written. None is a begin that is no time, or that a capture has no room for.
pub(crate) fn burst_settings_of(export: &ArgMatches<'_>) -> Option<ExportSettings>
    ensures settings { IfSome result (λ settings. spec.AreBurstSettings (found_of export.now) settings) }
{
    let start = start_of(export)?;
    ExportSettings::new(own_number_of(export), start)
}
