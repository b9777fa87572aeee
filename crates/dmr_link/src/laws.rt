//! Laws of the definition of a sealed link control, as the contracts of functions that do nothing.
ghost use Rattle.std.specs.Prelude.{◌≡◌, List, Bool};
ghost use Rattle.dmr_bptc.specs.ProductWord.{IsWritten};
ghost use Rattle.dmr_link.specs.FullLc.{FitsFullLc};
ghost use Rattle.dmr_link.specs.Sealed.{IsLc, IsReadLc};
ghost use Rattle.dmr_link.specs.declared.full_lc.FullLc.{FullLc};
ghost use Rattle.dmr_link.specs.declared.sealing.LcUse.{LcUse};
ghost use Rattle.dmr_link.specs.Options as numbers;

use crate::ServiceOptions;

/// A link control whose fields fit has a sealed form for each use.
pub fn link_control_is_sealed()
    ensures law { (lc_use : LcUse) (lc : FullLc) → FitsFullLc lc → (message : List Bool) × IsLc lc_use lc message }
{}

/// A link control has one sealed form for a use.
pub fn one_written_form()
    ensures law { (lc_use : LcUse) (lc : FullLc) (a b : List Bool) → IsLc lc_use lc a → IsLc lc_use lc b → a ≡ b }
{}

/// Bits are of one link control.
pub fn one_reading()
    ensures law { (lc_use : LcUse) (a b : FullLc) (message : List Bool) → IsLc lc_use a message → IsLc lc_use b message → a ≡ b }
{}

/// What is read of the written form of a link control is that link control.
pub fn what_is_written_is_read_back()
    ensures law { (lc_use : LcUse) (lc read : FullLc) (message bits : List Bool) → IsLc lc_use lc message
        → IsWritten message bits → IsReadLc lc_use bits read → read ≡ lc }
{}

/// The named service options have the standard's bits.
pub fn service_options_are_numbered()
    ensures emergency { ServiceOptions.EMERGENCY.0 ≡ numbers.emergency }
    ensures privacy { ServiceOptions.PRIVACY.0 ≡ numbers.privacy }
    ensures broadcast { ServiceOptions.BROADCAST.0 ≡ numbers.broadcast }
    ensures open_voice_call_mode { ServiceOptions.OVCM.0 ≡ numbers.open_voice_call_mode }
{}
