//! What holds of packets and messages, in whatever order the messages come.

ghost use Rattle.sms_segments.specs.Arrivals.{OneMakesIt, PacketsDontMix, PiecesMakeIt, PiecesMakeOne};

/// The messages of a packet give that packet: in any order, some of them more than once before the last place
/// is filled, and among any other messages. Messages of another card, reference or total never come into it.
///
/// It speaks of what `piece` writes and `Assembler::push` answers: 3GPP TS 23.040, 9.2.3.24.1.
pub fn pieces_make_packets()
    ensures one { OneMakesIt }
    ensures pieces { PiecesMakeIt }
    ensures nothing_else { PiecesMakeOne }
    ensures apart { PacketsDontMix }
{}
