//! What holds of AES for every key and block.

ghost use Rattle.gf_aes.specs.Laws.{GivesBlocks, IsUndone};

/// AES gives 16 octets, and its inverse undoes it. Nothing runs: a caller's proof has the two laws from here.
///
/// FIPS 197, 5.
pub fn aes_is_undone()
    ensures blocks { GivesBlocks }
    ensures undone { IsUndone }
{}
