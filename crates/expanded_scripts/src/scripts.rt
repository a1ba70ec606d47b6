//! An expanded command script.

ghost use Rattle.std.specs.Prelude.{◌≡◌, ◌≤◌, length};
ghost use Rattle.expanded_scripts.specs.Template.{ArePlain};

use ota_core::Octets;
use std::alloc::Global;
use std::marker::Model;

/// The commands of an expanded command script, at most 4,096, each in its plain form: CLA, INS, P1, P2, P3
/// and its data, with no Le. Contracts see the list of the plain forms.
///
/// ETSI TS 102 226, 5.2.2.
#[derive(Debug, Drop)]
pub struct Expanded {
    commands: Vec<Octets>,
}

impl Model for Expanded {
    ghost use Rattle.std.specs.Prelude.{ℕ, List, ◌≤◌, length};
    ghost use Rattle.expanded_scripts.specs.Template.{ArePlain};

    ghost Value = { List (List ℕ) };

    ghost view = { λ e. e.commands.items };

    ghost invariant = { λ e. ArePlain e.commands.items };
}

impl Expanded {
    /// The plain forms in order.
    pub fn commands(&self) -> &[Octets]
        ensures commands { result.now ≡ self.now }
        ensures plain { ArePlain self.now }
    {
        self.commands.as_slice()
    }

    /// The script of these plain forms.
    pub(crate) fn from_commands(commands: Vec<Octets>) -> Expanded
        requires { ArePlain commands.items }
        ensures { result ≡ commands.items }
    {
        Expanded { commands }
    }

    /// Where its memory is from.
    pub(crate) fn allocator(&self) -> Global {
        *self.commands.allocator()
    }
}
