//! A lane's site: the disk of its journal, and the port to its cards, on one clock.
#![tactic(auto)]

mod bare_site;
mod departures;
mod moments;
mod port;
mod site_faults;
mod sites;

pub use bare_site::BareSite;
pub use departures::Departure;
pub use port::Port;
pub use site_faults::SiteFault;
pub use sites::{Site, SiteCalls};

#[cfg(test)]
mod tests;
