//! The parts of a card that scripts are for.

ghost use Rattle.std.specs.Prelude.{◌≡◌};
ghost use Rattle.std.specs.Str.{bytes_eq};
ghost use Rattle.script_engine.specs.Part.{part_of};

use ota_core::Tar;

/// The part of the card that a script is for. ETSI TS 102 226, 6 and 7.
#[derive(Clone, Copy, Debug, PartialEq, Eq)]
pub enum Part {
    /// Remote file management.
    Files,
    /// Remote applet management.
    Applets,
}

impl Part {
    /// The part that a TAR asks for, on a card with these TARs for its files (`rfm`) and its applets (`ram`). None where
    /// it is neither; where both are one, it asks for the files.
    pub fn of(tar: &Tar, rfm: &Tar, ram: &Tar) -> Option<Part>
        ensures { result ≡ part_of tar.now rfm.now ram.now }
    {
        if is_same(tar, rfm) {
            return Some(Part::Files);
        }
        if is_same(tar, ram) {
            return Some(Part::Applets);
        }
        None
    }
}

fn is_same(a: &Tar, b: &Tar) -> bool
    ensures { result ≡ bytes_eq a.now b.now }
{
    a.0.as_slice() == b.0.as_slice()
}
