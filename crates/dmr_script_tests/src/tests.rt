//! What all files of tests have.
mod calls;
mod lines;
mod packets;
mod refusals;
mod shapes;
mod singles;

use dmr_record::FromRead;
use dmr_script::{
    NumberedStatement, Script, Sender, Statement, Transmission, Transmit, read_script,
};
use std::alloc::{AllocError, Global};
use std::process::Abort;

/// That both are the same, of what is told where they aren't.
fn are_same<T: PartialEq>(rt: &impl Abort, what: &str, got: &T, expected: &T) {
    assert!(rt; got == expected, "{what}");
}

/// What is read of a text.
fn script_of(alloc: Global, text: &str) -> Result<Script, AllocError> {
    let mut source = FromRead::new(text.as_bytes());
    read_script(alloc, &mut source)
}

/// What is read of this line behind `slot 1`.
fn read_behind_slot(alloc: Global, line: &str) -> Result<Script, AllocError> {
    let text = format!(in alloc; "slot 1\n{line}\n")?;
    script_of(alloc, text.as_str())
}

/// That a script has this statement last, and that nothing is refused.
fn ends_with(rt: &impl Abort, line: &str, script: &Script, expected: &NumberedStatement) {
    are_same(rt, line, &script.refused, &None);
    are_same(rt, line, &script.statements.last(), &Some(expected));
}

/// The statement of the second line behind `slot 1`, and that nothing is refused.
fn says(rt: &impl Abort, alloc: Global, line: &str, expected: Statement) -> Result<(), AllocError> {
    let expected = NumberedStatement {
        line: 2,
        statement: expected,
    };
    let script = read_behind_slot(alloc, line)?;
    ends_with(rt, line, &script, &expected);
    Ok(())
}

/// The transmission of the second line behind `slot 1`, of the own colour code.
fn sends(
    rt: &impl Abort,
    alloc: Global,
    line: &str,
    transmission: Transmission,
) -> Result<(), AllocError> {
    let statement = Statement::Transmit(Transmit {
        sender: Sender::Own,
        transmission,
    });
    says(rt, alloc, line, statement)
}

/// What a text is refused for.
fn is_refused(
    rt: &impl Abort,
    alloc: Global,
    text: &str,
    expected: &str,
) -> Result<(), AllocError> {
    let script = script_of(alloc, text)?;
    let printed = match script.refused {
        Some(refused) => format!(in alloc; "{refused}")?,
        None => format!(in alloc; "nothing")?,
    };
    assert_eq!(rt; printed.as_str(), expected, "{text}");
    Ok(())
}

/// That each of these texts is refused for what stands beside it.
fn are_refused(rt: &impl Abort, alloc: Global, rows: &[(&str, &str)]) -> Result<(), AllocError> {
    for (text, expected) in rows {
        is_refused(rt, alloc, text, expected)?;
    }
    Ok(())
}
