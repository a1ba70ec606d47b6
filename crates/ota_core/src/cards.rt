use crate::application::Tar;
use crate::keysets::KeysetList;

/// The number of a card.
#[derive(Clone, Copy, Debug, PartialEq, Eq, PartialOrd, Ord, Hash)]
pub struct CardId(pub u64);

/// What is known of a card as it was issued.
#[derive(Debug, Drop)]
pub struct CardFacts {
    pub card: CardId,
    /// How many octets of a script the card can take.
    pub buffer: u32,
    /// The reference of remote file management (ETSI TS 102 226, 5.1).
    pub rfm: Tar,
    /// The reference of remote application management (ETSI TS 102 226, 5.1).
    pub ram: Tar,
    pub keysets: KeysetList,
    /// Whether it also takes messages whose reference has two octets, and so scripts of more than 1,024 octets.
    pub wide: bool,
}
