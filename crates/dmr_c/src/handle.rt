//! A station as the pointer that a host keeps.
ghost use Rattle.std.specs.Prelude.{◌≡◌, Option, option_map};
ghost use Rattle.std.specs.declared.option.Option.TheVariants.{None, Some};
ghost use Rattle.dmr_station.specs.Station.{State};
ghost use Rattle.dmr_c.specs.Handle.{coded_held, handle_owns};

use crate::parts::Parts;
use dmr_station::Station;
use std::alloc::Global;
use std::marker::Model;
use std::ptr::null_mut;

/// A station that a host keeps, or none where the pointer is null. No handle can be let go, so that none can lose its station.
#[repr(C)]
pub struct StationHandle {
    at: *mut u8,
    ghost held: { Option State } by { coded_held },
}

// A handle owns its station.
impl Model for StationHandle {
    ghost use Rattle.dmr_c.specs.Handle.{handle_owns};

    ghost also_owns = { λ h. handle_owns h.at h.held };
}

impl StationHandle {
    /// No station.
    pub(crate) fn none() -> StationHandle
        ensures none { result.held ≡ None }
    {
        StationHandle { at: null_mut() }
    }

    /// That of a box's parts.
    fn of_parts(parts: Parts<Station, Global>) -> StationHandle
        ensures held { result.held ≡ Some parts.value }
    {
        let Parts { ptr, alloc: _ } = parts;
        StationHandle { at: ptr as *mut u8 }
    }

    /// The parts of its box, if it has one.
    fn into_parts(self, alloc: Global) -> Option<Parts<Station, Global>>
        ensures held { option_map (λ parts. parts.value) result ≡ self.held }
    {
        let StationHandle { at } = self;
        if at.is_null() {
            None
        } else {
            Some(Parts {
                ptr: at as *mut Station,
                alloc,
            })
        }
    }

    /// That of a station.
    pub(crate) fn of(station: Box<Station>) -> StationHandle
        ensures held { result.held ≡ Some station.value }
    {
        StationHandle::of_parts(Parts::of(station))
    }

    /// Its station, if it has one.
    pub(crate) fn into_box(self, alloc: Global) -> Option<Box<Station>>
        ensures held { option_map (λ station. station.value) result ≡ self.held }
    {
        match self.into_parts(alloc) {
            Some(parts) => Some(parts.into_box()),
            None => None,
        }
    }
}
