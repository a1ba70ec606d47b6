/// The fault of a call of a port. Each is answered only where the site's count of that cause rose in the call.
#[derive(Clone, Copy, Debug, PartialEq, Eq)]
pub enum SiteFault {
    /// The device failed.
    Failed,
    /// A simulated device found no memory.
    Memory,
}
