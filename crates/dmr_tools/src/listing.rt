//! Files that are listed, or of which a log is printed.
ghost use Rattle.std.specs.Prelude.{◌≡◌, ◌≤◌, ◌⊎◌, false, true};
ghost use Rattle.dmr_lines.specs.Status.{failure, success};
ghost use Rattle.dmr_show.specs.Showing.{TellsFault};
ghost use Rattle.dmr_tools.specs.Listed as spec;

use crate::opening::print_unopened;
use dmr_files::{Open, Place, System, open_source};
use dmr_lines::FAILURE;
use dmr_log_forms::{LogSettings, print_log};
use dmr_log_page::{PageSettings, print_page};
use dmr_record::{Sink, Source};
use dmr_show::{Filter, Form, show};
use std::alloc::Global;

/// What is printed of a file.
#[derive(Clone, Copy)]
pub(crate) enum Listing {
    /// What it holds, in a form, as far as a filter lets its lines pass.
    Lines { form: Form, filter: Filter },
    /// The log of a recording.
    Log(LogSettings),
    /// The same as a page.
    Page(PageSettings),
}

/// Prints a listing of an open file, as far as it can be read. Where it is live, no line waits for others.
fn print_listing<F: Source, K: Sink, E: Sink>(
    alloc: Global,
    name: &str,
    listing: Listing,
    is_live: bool,
    file: &mut F,
    out: &mut K,
    err: &mut E,
) -> u8
    requires file { F.has_failed file.old ≡ false }
    requires out { K.has_failed out.old ≡ false }
    requires err { E.has_failed err.old ≡ false }
    ensures whole { result ≡ success → spec.IsListingPut listing
        (F.left file.old) (F.left file.new) (K.held out.old) (K.held out.new) }
    ensures fault { result ≡ failure → K.has_failed out.new ≡ false
        → TellsFault result (K.has_failed out.new) (E.has_failed err.new) (E.held err.old) (E.held err.new) }
    ensures part { result ≡ failure → K.has_failed out.new ≡ false → spec.IsListingPutInPart listing
        (F.left file.old) (F.left file.new) (K.held out.old) (K.held out.new) }
    ensures alone { (err.new ≡ err.old)
        ⊎ TellsFault result (K.has_failed out.new) (E.has_failed err.new) (E.held err.old) (E.held err.new) }
    ensures success { result ≡ success → err.new ≡ err.old }
    ensures status { result ≤ 1 }
    ensures out_failed { K.has_failed out.new ≡ true → result ≡ failure }
    ensures err_failed { E.has_failed err.new ≡ true → result ≡ failure }
{
    match listing {
        Listing::Lines { form, filter } => show(alloc, name, form, filter, is_live, file, out, err),
        Listing::Log(settings) => print_log(alloc, name, &settings, file, out, err),
        Listing::Page(settings) => print_page(alloc, name, &settings, file, out, err),
    }
}

/// Prints a listing of the file of a name, as far as it can be read.
pub(crate) fn list_file<S: System, K: Sink, E: Sink>(
    alloc: Global,
    system: &S,
    name: &str,
    listing: Listing,
    out: &mut K,
    err: &mut E,
) -> u8
    requires out { K.has_failed out.old ≡ false }
    requires err { E.has_failed err.old ≡ false }
    ensures whole { result ≡ success → spec.IsSomeListingPut listing (K.held out.old) (K.held out.new) }
    ensures fault { result ≡ failure → K.has_failed out.new ≡ false
        → TellsFault result (K.has_failed out.new) (E.has_failed err.new) (E.held err.old) (E.held err.new) }
    ensures part { result ≡ failure → K.has_failed out.new ≡ false
        → spec.IsSomeListingPutInPart listing (K.held out.old) (K.held out.new) }
    ensures alone { (err.new ≡ err.old)
        ⊎ TellsFault result (K.has_failed out.new) (E.has_failed err.new) (E.held err.old) (E.held err.new) }
    ensures success { result ≡ success → err.new ≡ err.old }
    ensures status { result ≤ 1 }
    ensures out_failed { K.has_failed out.new ≡ true → result ≡ failure }
    ensures err_failed { E.has_failed err.new ≡ true → result ≡ failure }
{
    match open_source(system, alloc, Place::named(name)) {
        Ok(Open { mut file, identity }) => {
            let is_live = identity.is_live();
            print_listing(alloc, name, listing, is_live, &mut file, out, err)
        }
        Err(fault) => {
            print_unopened(alloc, name, fault, err);
            FAILURE
        }
    }
}
