//! Full link control: who calls whom, at the start and at the end of a voice call.
//!
//! `FullLc` has the fields of a link control as the standard names them; contracts read them as they are. One list
//! of fields serves `octets` and `from_octets`, and `specs/FullLc.antt` spells the 72 bits a second time. `lc_info`
//! seals a link control for its use, in a header or in a terminator, and `lc_read` reads it back, one wrong octet
//! corrected: `specs/Sealed.antt` says what is sealed, and which bits are near it. `voice` sees the body of voice
//! calls (`specs/Voice.antt`), with its service options (`specs/Options.antt`). The laws of the definitions are the
//! contracts of the functions in `laws`.
#![tactic(auto)]

mod fault;
mod full_lc;
pub mod laws;
mod reading;
mod sealing;
mod service_options;
mod voice_lc;

pub use fault::LcFault;
pub use full_lc::FullLc;
pub use reading::lc_read;
pub use sealing::{LcUse, lc_info};
pub use service_options::ServiceOptions;
pub use voice_lc::{CallKind, GROUP_CALL, UNIT_TO_UNIT_CALL, VoiceLc};
