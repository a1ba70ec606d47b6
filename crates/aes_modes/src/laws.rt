//! What holds of CBC and CMAC for every key and text.

ghost use Rattle.aes_modes.specs.Laws.{GivesBlocks, IsUndone, KeepsLength};

/// CBC keeps the length of whole blocks, and decrypting undoes encrypting. Nothing runs: a caller's proof has the two
/// laws from here.
///
/// NIST SP 800-38A, 6.2.
pub fn cbc_is_undone()
    ensures len { KeepsLength }
    ensures undone { IsUndone }
{}

/// A CMAC is 16 octets. Nothing runs: a caller's proof has the law from here.
///
/// NIST SP 800-38B, 6.2.
pub fn cmac_is_a_block()
    ensures { GivesBlocks }
{}
