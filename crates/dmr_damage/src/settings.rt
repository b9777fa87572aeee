//! How a recording is damaged.
use std::marker::Model;
use thiserror::Error;

/// How a recording is damaged.
#[derive(Clone, Copy, Debug, PartialEq, Eq, Drop)]
pub enum Damage {
    /// Within the limits of what a repeater undoes that has this colour code, below 16.
    WithinLimits { colour: u8 },
    /// Each bit is turned with `errors` in 10,000, and each burst left out with `loss` in 10,000.
    AtRate { errors: u16, loss: u16 },
}

/// Why settings were refused. The numbers are this project's own.
#[derive(Clone, Copy, Debug, PartialEq, Eq, Drop, Error)]
pub enum SettingsFault {
    /// The colour code is over 15.
    #[error("the colour code is over 15")]
    Colour = 1,
    /// More than 10,000 bits in 10,000 are to be turned.
    #[error("the errors are over 10000")]
    Errors = 2,
    /// More than 10,000 bursts in 10,000 are to be left out.
    #[error("the loss is over 10000")]
    Loss = 3,
}

/// How a recording is damaged, and the seed by which that is drawn.
#[derive(Drop)]
pub struct DamageSettings {
    damage: Damage,
    seed: u64,
}

// What is settled is in its range.
impl Model for DamageSettings {
    ghost use Rattle.dmr_damage.specs.Settings.{Settled, IsInRange};

    ghost Value = { Settled };

    ghost view = { λ s. record { damage = s.damage; seed = s.seed } };

    ghost invariant = { λ s. IsInRange s.damage };
}

impl DamageSettings {
    ghost use Rattle.std.specs.Prelude.{◌≡◌, Some, None, IfOk, IfErr, OnOk};
    ghost use Rattle.dmr_damage.specs.Settings.{damage_fault, IsInRange};

    /// The damage with this seed, or what is out of its range: a colour code over 15, or a rate over 10,000, that of errors first.
    pub fn new(damage: Damage, seed: u64) -> Result<DamageSettings, SettingsFault>
        ensures valid { OnOk result (damage_fault damage ≡ None) }
        ensures fault { IfErr result (λ e. damage_fault damage ≡ Some e) }
        ensures settled { IfOk result (λ s. s ≡ record { damage = damage; seed = seed }) }
    {
        match damage {
            Damage::WithinLimits { colour } if colour > 15 => Err(SettingsFault::Colour),
            Damage::AtRate { errors, .. } if errors > 10_000 => Err(SettingsFault::Errors),
            Damage::AtRate { loss, .. } if loss > 10_000 => Err(SettingsFault::Loss),
            _ => Ok(DamageSettings { damage, seed }),
        }
    }

    /// How the recording is damaged.
    pub(crate) fn damage(&self) -> Damage
        ensures value { result ≡ self.now.damage }
        ensures range { IsInRange result }
    {
        self.damage
    }

    /// The seed.
    pub(crate) fn seed(&self) -> u64
        ensures value { result ≡ self.now.seed }
    {
        self.seed
    }
}
