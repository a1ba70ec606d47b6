use command_packet::PacketBuf;
use ota_core::Memory;
use std::alloc::Global;

/// The most octets of a packet in 255 messages (3GPP TS 23.040, 9.2.3.24.1).
pub(crate) const LONGEST_PACKET: usize = 34_168;

/// Where a lane builds the packets that it sends and opens those that it was given, so that it needs no memory for either.
#[derive(Drop)]
pub(crate) struct Workspace {
    pub(crate) packet: Box<PacketBuf>,
    pub(crate) response: Box<[u8; LONGEST_PACKET]>,
}

impl Workspace {
    pub(crate) fn new(alloc: Global) -> Result<Workspace, Memory> {
        let packet = Box::new(alloc, PacketBuf::new())?;
        let response = Box::new(alloc, [0; LONGEST_PACKET])?;
        Ok(Workspace { packet, response })
    }
}
