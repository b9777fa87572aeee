//! Two files, compared.
ghost use Rattle.std.specs.Prelude.{◌≡◌, ◌≤◌, false, true};
ghost use Rattle.dmr_compare.specs.Status.{trouble};
ghost use Rattle.dmr_lines.specs.Line.{PutsError};
ghost use Rattle.dmr_tools.specs.Comparing as spec;

use crate::comparison::Comparison;
use crate::opening::print_unopened;
use dmr_compare::{FileNames, TROUBLE, compare};
use dmr_files::{Open, System, open_source};
use dmr_record::Sink;
use std::alloc::Global;

/// Compares two files, prints what differs, and answers the exit status.
pub(crate) fn compare_files<S: System, K: Sink, E: Sink>(
    alloc: Global,
    system: &S,
    comparison: &Comparison<'_>,
    out: &mut K,
    err: &mut E,
) -> u8
    requires out { K.has_failed out.old ≡ false }
    requires err { E.has_failed err.old ≡ false }
    ensures whole { result ≤ 1
        → spec.IsSomeComparison comparison.now.settings result (K.held out.old) (K.held out.new) }
    ensures success { result ≤ 1 → err.new ≡ err.old }
    ensures part { result ≡ trouble → K.has_failed out.new ≡ false
        → spec.IsSomeComparisonInPart comparison.now.settings (K.held out.old) (K.held out.new) }
    ensures told { result ≡ trouble → K.has_failed out.new ≡ false → E.has_failed err.new ≡ false
        → PutsError (E.held err.old) (E.held err.new) }
    ensures untold { K.has_failed out.new ≡ true → err.new ≡ err.old }
    ensures status { result ≤ 2 }
    ensures out_failed { K.has_failed out.new ≡ true → result ≡ trouble }
    ensures err_failed { E.has_failed err.new ≡ true → result ≡ trouble }
{
    let names = FileNames {
        first: comparison.first.name(),
        second: comparison.second.name(),
    };
    let mut first = match open_source(system, alloc, comparison.first) {
        Ok(Open { file, .. }) => file,
        Err(fault) => {
            print_unopened(alloc, names.first, fault, err);
            return TROUBLE;
        }
    };
    let mut second = match open_source(system, alloc, comparison.second) {
        Ok(Open { file, .. }) => file,
        Err(fault) => {
            print_unopened(alloc, names.second, fault, err);
            return TROUBLE;
        }
    };
    compare(
        alloc,
        &comparison.settings,
        &names,
        &mut first,
        &mut second,
        out,
        err,
    )
}
