//! What holds of all command packets.

ghost use Rattle.command_packet.specs.Laws.{CarriesWhatIsBuilt, HasPacketLength, NamesItsKeyset, NamesOneKeyset};

/// A packet names its keyset: what it carries under any keys, it carries for the key version number alone that its octets
/// name. So it carries a command for one key version number at most.
///
/// ETSI TS 102 225, 5.1.
pub fn packets_name_their_keyset()
    ensures named { NamesItsKeyset }
    ensures one { NamesOneKeyset }
{}

/// The packet of a command has the length that the lengths of its parts give, and carries the command: whatever the keys,
/// and whether or not `build` made it.
///
/// ETSI TS 102 225, 5.1.
pub fn packets_carry_their_command()
    ensures len { HasPacketLength }
    ensures carries { CarriesWhatIsBuilt }
{}
