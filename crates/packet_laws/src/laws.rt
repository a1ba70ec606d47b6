//! What holds of command and response packets together.

ghost use Rattle.packet_laws.specs.Laws.{BuiltApart, ReadApart};

/// No octets are both what the cryptographic checksum of a command is over and what that of a response is over, so
/// neither packet passes for the other under one key.
pub fn checksums_apart()
    ensures built { BuiltApart }
    ensures read { ReadApart }
{}
