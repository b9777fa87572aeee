//! What a command line of `damage` asks for.
ghost use Rattle.std.specs.Prelude.{◌≡◌, codes};
ghost use Rattle.clap.specs.Words.{found_of};
ghost use Rattle.dmr_options.specs.Found.{IsGivenBy, IsNumberOf};
ghost use Rattle.dmr_tools.specs.Damaging as spec;

use clap::ArgMatches;
use dmr_damage::Damage;

/// How many of ten thousand are to be damaged, where that is given.
fn rate_of(damage: &ArgMatches<'_>, option: &str) -> Option<u16>
    ensures number { IsGivenBy 16 (found_of damage.now) option.now result }
{
    damage.get_one::<u16>(option)
}

/// The colour code within whose limits the damage stays, which has a default.
fn colour_of(damage: &ArgMatches<'_>) -> u8
    ensures number { IsNumberOf 8 (found_of damage.now) (codes "colour") result }
{
    damage.get_one::<u8>("colour").unwrap_or(0)
}

/// The seed, which has a default.
pub(crate) fn seed_of(damage: &ArgMatches<'_>) -> u64
    ensures number { IsNumberOf 64 (found_of damage.now) (codes "seed") result }
{
    damage.get_one::<u64>("seed").unwrap_or(0)
}

/// The damage by its options: at a rate where one of both is given, and else within the limits.
fn damage_by(errors: Option<u16>, loss: Option<u16>, colour: u8) -> Damage
    ensures value { result ≡ spec.damage_by errors loss colour }
{
    match (errors, loss) {
        (None, None) => Damage::WithinLimits { colour },
        _ => Damage::AtRate {
            errors: errors.unwrap_or(0),
            loss: loss.unwrap_or(0),
        },
    }
}

/// The damage that a command line asks for.
pub(crate) fn damage_of(damage: &ArgMatches<'_>) -> Damage
    ensures damage { spec.IsDamageOf (found_of damage.now) result }
{
    damage_by(
        rate_of(damage, "errors"),
        rate_of(damage, "loss"),
        colour_of(damage),
    )
}
