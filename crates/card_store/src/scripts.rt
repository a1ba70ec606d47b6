use ota_core::Octets;
use script_engine::Part;

/// A script of which a command is left.
#[derive(Debug, Drop)]
pub struct Script {
    /// The part of the card that it is for.
    pub part: Part,
    pub body: Octets,
    /// The place in it, from 0, where the next command begins.
    pub next: u32,
}
