/// The reference that tells the pieces of one packet from those of others (3GPP TS 23.040, 9.2.3.24.1 and 9.2.3.24.8).
/// References of one and of two octets are different ones, whatever their numbers.
#[derive(Clone, Copy, Debug, PartialEq, Eq, Hash)]
pub enum Reference {
    /// A reference of one octet.
    Short(u8),
    /// A reference of two octets.
    Wide(u16),
}
