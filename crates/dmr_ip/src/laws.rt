//! Laws of datagrams and their spellings, as the contracts of functions that do nothing.
ghost use Rattle.std.specs.Prelude.{◌≡◌, ◌↔◌, ℕ, Bool, List, None, Some, Ok};
ghost use Rattle.dmr_ip.specs.Contents.{AreOctets, Contents, FitsDatagram, datagram_of};
ghost use Rattle.dmr_ip.specs.Datagram.{IsDatagram, datagram_fault};
ghost use Rattle.dmr_ip.specs.Spelling.{SpellsDatagram, Writes, compress, expand};

/// Octets have no fault exactly where they are a datagram.
pub fn datagrams_are_faultless()
    ensures law { (octets : List ℕ) → (datagram_fault octets ≡ None) ↔ IsDatagram octets }
{}

/// What is built of contents is a datagram: among others, the checksums that are computed are right.
pub fn built_datagrams_are_datagrams()
    ensures law { (source destination : ℕ) (group : Bool) (contents : Contents)
        → FitsDatagram contents → IsDatagram (datagram_of source destination group contents) }
{}

/// A form that is written for a datagram gives it back.
pub fn written_forms_are_expanded()
    ensures law { (octets : List ℕ) (source destination : ℕ) (group : Bool) (datagram : List ℕ)
        → Writes octets source destination group datagram
        → expand octets source destination group ≡ Ok datagram }
{}

/// Octets are expanded to a datagram exactly where they spell it.
pub fn spellings_are_expanded()
    ensures law { (octets : List ℕ) (source destination : ℕ) (group : Bool) (datagram : List ℕ)
        → AreOctets octets
        → (expand octets source destination group ≡ Ok datagram)
        ↔ SpellsDatagram octets source destination group datagram }
{}

/// A datagram is compressed to octets exactly where they are the form that is written for it.
pub fn written_forms_are_compressed()
    ensures law { (octets : List ℕ) (source destination : ℕ) (group : Bool) (datagram : List ℕ)
        → AreOctets datagram → IsDatagram datagram
        → (compress datagram source destination group ≡ Some octets)
        ↔ Writes octets source destination group datagram }
{}

/// Octets spell one datagram at most.
pub fn spelled_datagrams_are_one()
    ensures law { (octets : List ℕ) (source destination : ℕ) (group : Bool) (one other : List ℕ)
        → SpellsDatagram octets source destination group one
        → SpellsDatagram octets source destination group other → one ≡ other }
{}

/// One form at most is written for a datagram.
pub fn written_forms_are_one()
    ensures law { (one other : List ℕ) (source destination : ℕ) (group : Bool) (datagram : List ℕ)
        → Writes one source destination group datagram
        → Writes other source destination group datagram → one ≡ other }
{}
