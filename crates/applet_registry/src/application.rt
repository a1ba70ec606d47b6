//! Applications.

ghost use Rattle.std.specs.Prelude.{◌≡◌, map, option_map};
ghost use Rattle.applet_registry.specs.State.{state_of, with_state_of};

use crate::aid::Aid;

/// The life cycle state of a load file: loaded. GlobalPlatform Card Specification 2.1.1, 9.1.1.
pub const LOADED: u8 = 0x01;

/// The life cycle state of an application that is installed. GlobalPlatform Card Specification 2.1.1,
/// 9.1.1.
pub const INSTALLED: u8 = 0x03;

/// The life cycle state of an application that may be selected. GlobalPlatform Card Specification 2.1.1,
/// 9.1.1.
pub const SELECTABLE: u8 = 0x07;

/// An application of the card.
///
/// GlobalPlatform Card Specification 2.1.1, 5.3.
#[derive(Drop)]
pub struct Application {
    /// Its AID.
    pub aid: Aid,
    /// The AID of the load file that it comes from.
    pub load_file: Aid,
    /// The AID of the module in that load file. Whether there is such a module isn't known.
    pub module_aid: Aid,
    /// Its life cycle state; b8 says that it is locked.
    pub state: u8,
    /// Its privileges.
    pub privileges: u8,
}

impl Application {
    /// Takes the new state, if it is for this application.
    fn take_state(&mut self, new: &NewState)
        ensures { self.new ≡ with_state_of new.now self.old }
    {
        if self.aid.is(&new.aid) {
            self.state = new.state;
        }
    }
}

/// A new state for the application with an AID.
#[derive(Drop)]
pub struct NewState {
    /// The application's AID.
    pub aid: Aid,
    /// The state.
    pub state: u8,
}

/// The state of the application with this AID.
pub(crate) fn state_of(applications: &[Application], aid: &Aid) -> Option<u8>
    ensures { result ≡ state_of applications.now aid.now }
{
    applications
        .iter()
        .find(|application| application.aid.is(aid))
        .map(|application| application.state)
}

/// Gives the application with an AID its new state.
pub(crate) fn set_state(applications: &mut [Application], new: &NewState)
    ensures { applications.new ≡ map (with_state_of new.now) applications.old }
{
    for application in applications.iter_mut() {
        application.take_state(new);
    }
}
