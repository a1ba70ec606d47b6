//! The values of options.

ghost use Rattle.std.specs.Prelude.{◌≡◌, ◌≤◌, IfSome, None, Some, option_map, map, string_bytes, codes};
ghost use Rattle.std.specs.Str.{bytes_eq};
ghost use Rattle.std.specs.List.{list_all};
ghost use Rattle.command_words.specs.Values.{is_value, has_no_end, number_from, number_or, is_word_octet, is_name, name_or};

use crate::names::Name;
use plan_reader::number;

/// The most digits of a number.
const NUMBER_WIDTH: usize = 18;

/// The most octets of a campaign's name.
const LONGEST_NAME: usize = 32;

/// Whether the text can be a value: it isn't empty and doesn't begin as an option does.
pub(crate) fn is_value(text: &str) -> bool
    ensures { result ≡ is_value text.now }
{
    match text.as_bytes() {
        [] => false,
        [first, ..] => *first != b'-',
    }
}

/// Whether no word ends the options.
pub(crate) fn has_no_end(words: &[String]) -> bool
    ensures { result ≡ has_no_end (map string_bytes words.now) }
{
    !words.iter().any(|word| is_end(word))
}

fn is_end(word: &String) -> bool
    ensures { result ≡ bytes_eq (string_bytes word.now) (codes "--") }
{
    word.as_str() == "--"
}

/// A number in 1 to 18 decimal digits, from a least to a greatest.
pub(crate) fn number_from(least: u64, greatest: u64, digits: &str) -> Option<u64>
    ensures number { result ≡ number_from least greatest digits.now }
    ensures least { IfSome result (λ number. least ≤ number) }
    ensures greatest { IfSome result (λ number. number ≤ greatest) }
{
    match number(digits.as_bytes(), NUMBER_WIDTH, greatest) {
        None => None,
        Some(number) => { if number >= least { Some(number) } else { None } }
    }
}

/// The number that an option says, or this one where it is missing.
pub(crate) fn number_or(
    missing: u64,
    least: u64,
    greatest: u64,
    digits: Option<&str>,
) -> Option<u64>
    requires least { least ≤ missing }
    requires greatest { missing ≤ greatest }
    ensures number { result ≡ number_or missing least greatest (option_map (λ text. text.now) digits.entry) }
    ensures least { IfSome result (λ number. least ≤ number) }
    ensures greatest { IfSome result (λ number. number ≤ greatest) }
{
    match digits {
        None => Some(missing),
        Some(digits) => number_from(least, greatest, digits),
    }
}

/// The campaign's name: 1 to 32 ASCII letters, digits or underscores, and empty where the option is missing.
pub(crate) fn name_or(name: Option<&str>) -> Option<Name>
    ensures { result ≡ name_or (option_map (λ text. text.now) name.entry) }
{
    match name {
        None => Some(Name::empty()),
        Some(name) => {
            if is_name(name) {
                Some(Name::of(name.as_bytes()))
            } else {
                None
            }
        }
    }
}

/// Whether these are 1 to 32 ASCII letters, digits or underscores.
fn is_name(name: &str) -> bool
    ensures { result ≡ is_name name.now }
{
    let octets = name.as_bytes();
    !octets.is_empty() && octets.len() <= LONGEST_NAME && are_word_octets(octets)
}

fn are_word_octets(octets: &[u8]) -> bool
    ensures { result ≡ list_all is_word_octet octets.now }
{
    octets
        .iter()
        .all(|octet| octet.is_ascii_alphanumeric() || *octet == b'_')
}
