//! Laws of what a slot is heard as, as the contracts of functions that do nothing.
ghost use Rattle.std.specs.Prelude.{◌≡◌, ◌≢◌, ℕ, List, Bool, Option, Some};
ghost use Rattle.dmr_bits.specs.Bits.{bits_of_octets};
ghost use Rattle.dmr_burst.specs.Burst.{IsEncoding};
ghost use Rattle.dmr_burst.specs.declared.burst.Burst.TheVariants as burst;
ghost use Rattle.dmr_burst.specs.declared.emb.Emb.{Emb};
ghost use Rattle.dmr_burst.specs.declared.sync.Side.TheVariants as side;
ghost use Rattle.dmr_hearing.specs.Damage.{IsSentSlot, IsRecordedAs, HasNoMobileSync};
ghost use Rattle.dmr_hearing.specs.Hearing.{Hears};
ghost use Rattle.dmr_hearing.specs.Recorded.{IsSilenceOr33Octets, IsHearing};
ghost use Rattle.dmr_hearing.specs.Slots.{SentSlot, Data, VoiceSync, Voice, ForeignVoice, ForeignData, IsHeardAs};
ghost use Rattle.dmr_hearing.specs.declared.heard.Heard.{Heard};
ghost use Rattle.dmr_link.specs.declared.full_lc.FullLc.{FullLc};

/// Whatever a slot is recorded as, silence or any 33 octets, it is heard as something.
pub fn every_slot_is_heard()
    ensures law { (colour : ℕ) (slot : Option (List ℕ)) → IsSilenceOr33Octets slot → (heard : Heard) × Hears colour slot heard }
{}

/// A slot is heard in one way: what `Hears` says pins the answer.
pub fn one_hearing()
    ensures law { (colour : ℕ) (slot : Option (List ℕ)) (a b : Heard) → Hears colour slot a → Hears colour slot b → a ≡ b }
{}

/// What a mobile station sends is a recording of its slot, with no damage: a data burst of the colour code, a burst with a
/// voice sync, a voice burst of the colour code with its EMB, and the bursts of another colour code. Of a voice burst of
/// another colour code the centre has to be no sync.
pub fn sent_is_recorded()
    ensures data { (colour kind : ℕ) (information : List Bool) (lc : Option FullLc) (octets : List ℕ)
        → IsSentSlot colour (Data kind information lc)
        → IsEncoding (burst.Data colour kind information) side.Ms (bits_of_octets octets)
        → IsRecordedAs colour (Data kind information lc) (Some octets) }
    ensures voice_sync { (colour : ℕ) (vocoder : List Bool) (octets : List ℕ)
        → IsEncoding (burst.VoiceSync vocoder) side.Ms (bits_of_octets octets) → IsRecordedAs colour VoiceSync (Some octets) }
    ensures voice { (colour : ℕ) (emb : Emb) (embedded : ℕ) (vocoder : List Bool) (octets : List ℕ)
        → IsSentSlot colour (Voice emb embedded)
        → IsEncoding (burst.Voice emb embedded vocoder) side.Ms (bits_of_octets octets)
        → IsRecordedAs colour (Voice emb embedded) (Some octets) }
    ensures foreign_data { (colour other kind : ℕ) (information : List Bool) (octets : List ℕ) → other ≢ colour
        → IsEncoding (burst.Data other kind information) side.Ms (bits_of_octets octets)
        → IsRecordedAs colour ForeignData (Some octets) }
    ensures foreign_voice { (colour : ℕ) (emb : Emb) (embedded : ℕ) (vocoder : List Bool) (octets : List ℕ)
        → IsSentSlot colour (ForeignVoice emb) → HasNoMobileSync (bits_of_octets octets)
        → IsEncoding (burst.Voice emb embedded vocoder) side.Ms (bits_of_octets octets)
        → IsRecordedAs colour (ForeignVoice emb) (Some octets) }
{}

/// What is recorded within the limits of damage, and heard by its fields, is heard as what was sent.
pub fn recorded_is_heard()
    ensures law { (colour : ℕ) (slot : Option (List ℕ)) (sent : SentSlot) (heard : Heard) → IsRecordedAs colour sent slot
        → Hears colour slot heard → IsHeardAs sent heard }
{}

/// A slot that is a recording of two things that may be sent can be heard as both: they ask for nothing that excludes the other.
pub fn heard_as_both()
    ensures law { (colour : ℕ) (slot : Option (List ℕ)) (a b : SentSlot) → IsSilenceOr33Octets slot → IsRecordedAs colour a slot
        → IsRecordedAs colour b slot → (heard : Heard) × IsHearing slot a heard × IsHearing slot b heard }
{}
