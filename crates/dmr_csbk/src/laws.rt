//! Laws of the definition of a block, as the contracts of functions that do nothing.
ghost use Rattle.std.specs.Prelude.{◌≡◌, List, Bool};
ghost use Rattle.dmr_bptc.specs.ProductWord.{IsWritten};
ghost use Rattle.dmr_csbk.specs.Block.{FitsCsbk, IsCsbk, IsReadCsbk};
ghost use Rattle.dmr_csbk.specs.declared.block.Csbk.{Csbk};

/// A block whose fields fit has its 96 bits.
pub fn block_is_sealed()
    ensures law { (csbk : Csbk) → FitsCsbk csbk → (message : List Bool) × IsCsbk csbk message }
{}

/// A block has one written form.
pub fn one_written_form()
    ensures law { (csbk : Csbk) (a b : List Bool) → IsCsbk csbk a → IsCsbk csbk b → a ≡ b }
{}

/// Bits are of one block.
pub fn one_reading()
    ensures law { (a b : Csbk) (message : List Bool) → IsCsbk a message → IsCsbk b message → a ≡ b }
{}

/// What is read of the written form of a block is that block.
pub fn what_is_written_is_read_back()
    ensures law { (csbk read : Csbk) (message bits : List Bool) → IsCsbk csbk message → IsWritten message bits
        → IsReadCsbk bits read → read ≡ csbk }
{}
