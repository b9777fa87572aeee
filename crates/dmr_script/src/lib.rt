//! The statements of a script, from which a recording is made.
//!
//! A script is a text. Each of its lines is a statement, or says nothing. `read_script` reads the statements with their lines
//! (`NumberedStatement`), up to the end of the text or to the first line that is refused (`RefusedLine`). A `Statement` says what
//! its line says, and nothing of when it is sent: that hangs on all lines, and is the matter of whoever makes a recording of them.
//!
//! Statements are plain enums and structs, and contracts read them as they are. `specs/Reading.antt` says of which lines they are,
//! `specs/Order.antt` which may stand behind which, and `specs/Fits.antt` in which ranges their numbers are. The shape of a call is
//! its letters by `specs/Shapes.antt`, which also says which are well formed, and `specs/Foreign.antt` what may have another colour
//! code. Inside, a line is read by a `Cursor`, word by word, and a function for each piece of the grammar takes what it says off
//! the front. A line that says nothing is one by `specs/Quiet.antt`.
#![tactic(auto)]

mod call;
mod call_shapes;
mod carrying;
mod cited;
mod control;
mod controls;
mod expected;
mod fault;
mod halt;
mod keyword;
mod letters;
mod lines;
mod link_controls;
mod numbers;
mod order;
mod packet;
mod packet_shapes;
mod packets;
mod reading;
mod script;
mod send;
mod sends;
mod shape;
mod statement;
mod token;
mod transmissions;

pub use call::{Call, Carried};
pub use cited::Cited;
pub use control::LoneBurst;
pub use expected::Expected;
pub use fault::{Refusal, RefusedLine};
pub use keyword::Keyword;
pub use packet::{
    Again, Answer, AnswerKind, Body, PacketTry, PartialTry, ShortDataTry, StatusSent, UdpMessage,
    Wanted,
};
pub use reading::read_script;
pub use script::Script;
pub use send::{AddressedMessage, Datagram, Send};
pub use shape::{CallShape, CallStart, HeaderKind, Headers, PacketShape, Place};
pub use statement::{NumberedStatement, Sender, Slot, Statement, Transmission, Transmit};
