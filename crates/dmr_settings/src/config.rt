//! The settings of a run.
ghost use Rattle.std.specs.Prelude.{◌<◌, ◌≤◌, ◌^◌};

use thiserror::Error;

/// What a run is set to.
#[derive(Clone, Copy, Debug, PartialEq, Eq)]
pub struct Config {
    /// The repeater's colour code, below 16 (ETSI TS 102 361-1, clause 9.3.1).
    pub colour: u8,
    /// The gateway's address on the air, a logical link identifier from 1 to 16,777,215.
    pub llid: u32,
    /// For how many frames a call holds its slot after its last burst, at most `channel_hang`.
    pub call_hang: u16,
    /// For how many frames the repeater stays on the air after the last repeated burst or burst of the gateway.
    pub channel_hang: u16,
    /// How many datagrams may wait for each slot, from 1 to 64.
    pub queue: u8,
    ghost colour_fits: { colour < 16 },
    ghost llid_fits: { (0 < llid) × (llid < 2 ^ 24) },
    ghost hang_fits: { call_hang ≤ channel_hang },
    ghost queue_fits: { (0 < queue) × (queue ≤ 64) },
}

/// Why settings were refused. The numbers are this project's own.
#[derive(Clone, Copy, Debug, Drop, PartialEq, Eq, Error)]
pub enum ConfigFault {
    /// The colour code is over 15.
    #[error("the colour code is over 15")]
    Colour = 1,
    /// The gateway's address is 0 or over 16,777,215.
    #[error("the gateway's address is not in 1..=16777215")]
    Llid = 2,
    /// The call hang is longer than the channel hang.
    #[error("call hang is longer than channel hang")]
    Hang = 3,
    /// The queue has room for no datagram, or for more than 64.
    #[error("the queue is not in 1..=64")]
    Queue = 4,
}

impl Config {
    ghost use Rattle.std.specs.Prelude.{◌≡◌, IfOk, IfErr, OnOk};
    ghost use Rattle.dmr_settings.specs.Config.{setting_fault};

    /// The settings, or the first of them that is out of its range, in the order of `ConfigFault`.
    pub fn new(
        colour: u8,
        llid: u32,
        call_hang: u16,
        channel_hang: u16,
        queue: u8,
    ) -> Result<Config, ConfigFault>
        ensures valid { OnOk result (setting_fault colour llid call_hang channel_hang queue ≡ None) }
        ensures fault { IfErr result (λ e. setting_fault colour llid call_hang channel_hang queue ≡ Some e) }
        ensures colour { IfOk result (λ c. c.colour ≡ colour) }
        ensures llid { IfOk result (λ c. c.llid ≡ llid) }
        ensures call_hang { IfOk result (λ c. c.call_hang ≡ call_hang) }
        ensures channel_hang { IfOk result (λ c. c.channel_hang ≡ channel_hang) }
        ensures queue { IfOk result (λ c. c.queue ≡ queue) }
    {
        if colour >= 16 {
            return Err(ConfigFault::Colour);
        }
        if llid == 0 || llid >= 1 << 24 {
            return Err(ConfigFault::Llid);
        }
        if call_hang > channel_hang {
            return Err(ConfigFault::Hang);
        }
        if queue == 0 || queue > 64 {
            return Err(ConfigFault::Queue);
        }
        Ok(Config {
            colour,
            llid,
            call_hang,
            channel_hang,
            queue,
        })
    }
}
