//! What the newest frames of a slot carry of a link control.
ghost use Rattle.std.specs.Prelude.{◌≡◌, ◌∷◌, ◌++◌, [], drop, None, replicate};
ghost use Rattle.dmr_listing.specs.Fragments.{AreCarried};

use dmr_burst::lcss;
use dmr_hearing::read_fields;
use dmr_link::FullLc;
use std::marker::Model;

/// What one voice burst carries of a link control.
#[derive(Clone, Copy, Drop)]
pub(crate) struct Fragment {
    /// The link control start and stop of its embedded signalling.
    pub(crate) lcss: u8,
    /// Its embedded field.
    pub(crate) field: u32,
}

/// What the newest four frames of a slot carry of a link control.
#[derive(Drop)]
pub(crate) struct Fragments {
    newest: [Option<Fragment>; 4],
}

// Clauses see the list of them, the newest last.
impl Model for Fragments {
    ghost use Rattle.std.specs.Prelude.{List, Option};
    ghost use Rattle.dmr_listing.specs.declared.fragments.Fragment.{Fragment};

    ghost Value = { List (Option Fragment) };

    ghost view = { λ fragments. fragments.newest };
}

impl Fragments {
    /// Nothing came yet.
    pub(crate) fn new() -> Fragments
        ensures value { result ≡ replicate 4 None }
    {
        Fragments { newest: [None; 4] }
    }

    /// The next frame of the slot came.
    pub(crate) fn push(&mut self, fragment: Option<Fragment>)
        ensures value { self.new ≡ drop 1 self.old ++ fragment ∷ [] }
    {
        let [_, second, third, fourth] = self.newest;
        self.newest = [second, third, fourth, fragment];
    }

    /// The link control that the newest four frames carry, where they say that they carry one and it can be read.
    /// ETSI TS 102 361-1, clause 7.1.3.
    pub(crate) fn link_control(&self) -> Option<FullLc>
        ensures carried { AreCarried self.now result }
    {
        match self.newest {
            [Some(b), Some(c), Some(d), Some(e)]
                if b.lcss == lcss::FIRST_FRAGMENT
                    && c.lcss == lcss::CONTINUATION_FRAGMENT
                    && d.lcss == lcss::CONTINUATION_FRAGMENT
                    && e.lcss == lcss::LAST_FRAGMENT => {
                read_fields(&[b.field, c.field, d.field, e.field])
            }
            _ => None,
        }
    }
}
