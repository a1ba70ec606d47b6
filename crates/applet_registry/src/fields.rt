//! The data fields of the commands.

ghost use Rattle.std.specs.Prelude.{◌≡◌, option_map, option_and_then, option_copied};
ghost use Rattle.applet_registry.specs.Fields.{field_of, values_of, new_load_file_in, named, named_in, new_application_of, installed_of, tagged_value_of};

use crate::aid::Aid;
use crate::application::Application;

/// The value behind its length of one octet, and what stands behind the value.
pub(crate) fn field(octets: &[u8]) -> Option<(&[u8], &[u8])>
    ensures { option_map (λ field. (field.0.now, field.1.now)) result ≡ field_of octets.now }
{
    match octets {
        [] => None,
        [len, behind @ ..] => {
            let len = usize::from(*len);
            if behind.len() < len {
                return None;
            }
            Some((&behind[..len], &behind[len..]))
        }
    }
}

/// The AID of the load file that INSTALL [for load] names.
///
/// GlobalPlatform Card Specification 2.1.1, 9.5.2.3.1.
#[tactic(auto, unfolding(crate::specs::Fields::values_of))]
pub(crate) fn new_load_file(octets: &[u8]) -> Option<Aid>
    ensures { result ≡ new_load_file_in (values_of 5 octets.now) }
{
    let (load_file, behind) = field(octets)?;
    let (_domain, behind) = field(behind)?;
    let (_hash, behind) = field(behind)?;
    let (_parameters, behind) = field(behind)?;
    let (_token, behind) = field(behind)?;
    if !behind.is_empty() {
        return None;
    }
    Aid::read(load_file)
}

/// The values of INSTALL [for install] and INSTALL [for make selectable] that are read.
///
/// GlobalPlatform Card Specification 2.1.1, 9.5.2.3.2 and 9.5.2.3.3.
#[derive(Clone, Copy)]
pub(crate) struct NamedValues<'a> {
    load_file: &'a [u8],
    module_aid: &'a [u8],
    aid: &'a [u8],
    privileges: u8,
}

/// Reads the six values.
#[tactic(auto, unfolding(crate::specs::Fields::values_of))]
fn named_values(octets: &[u8]) -> Option<NamedValues<'_>>
    ensures { option_map named result ≡ named_in (values_of 6 octets.now) }
{
    let (load_file, behind) = field(octets)?;
    let (module_aid, behind) = field(behind)?;
    let (aid, behind) = field(behind)?;
    let (privileges, behind) = field(behind)?;
    let (_parameters, behind) = field(behind)?;
    let (_token, behind) = field(behind)?;
    if !behind.is_empty() || privileges.len() != 1 {
        return None;
    }
    Some(NamedValues {
        load_file,
        module_aid,
        aid,
        privileges: privileges[0],
    })
}

/// The application that INSTALL [for install] names, in this state.
///
/// GlobalPlatform Card Specification 2.1.1, 9.5.2.3.2.
pub(crate) fn new_application(state: u8, octets: &[u8]) -> Option<Application>
    ensures { result ≡ option_and_then (new_application_of state) (named_in (values_of 6 octets.now)) }
{
    let named = named_values(octets)?;
    let load_file = Aid::read(named.load_file)?;
    let module_aid = Aid::read(named.module_aid)?;
    let aid = Aid::read(named.aid)?;
    Some(Application {
        aid,
        load_file,
        module_aid,
        state,
        privileges: named.privileges,
    })
}

/// The AID of the application that INSTALL [for make selectable] names.
///
/// GlobalPlatform Card Specification 2.1.1, 9.5.2.3.3.
pub(crate) fn installed(octets: &[u8]) -> Option<Aid>
    ensures { result ≡ option_and_then installed_of (named_in (values_of 6 octets.now)) }
{
    let named = named_values(octets)?;
    if !named.load_file.is_empty() || !named.module_aid.is_empty() {
        return None;
    }
    Aid::read(named.aid)
}

/// The value behind the tag 4F and a length of one octet, which fill the octets.
pub(crate) fn tagged_value(octets: &[u8]) -> Option<&[u8]>
    ensures { option_copied result ≡ tagged_value_of octets.now }
{
    match octets {
        [tag, len, value @ ..] if *tag == 0x4F && usize::from(*len) == value.len() => Some(value),
        _ => None,
    }
}
