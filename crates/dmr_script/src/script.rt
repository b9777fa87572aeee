//! Scripts.
use crate::fault::RefusedLine;
use crate::statement::NumberedStatement;

/// What was read of a script: the statements up to its end, or those in front of the first line that is refused.
#[derive(Drop, PartialEq, Eq)]
pub struct Script {
    /// The statements, by their lines.
    pub statements: Vec<NumberedStatement>,
    /// The line that is refused, where there is one. It stands behind the lines of all statements.
    pub refused: Option<RefusedLine>,
}
