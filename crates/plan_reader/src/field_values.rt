//! What the values in a plan's tables say.

ghost use Rattle.std.specs.Prelude.{◌≡◌, ◌≤◌, ◌<◌, ◌^◌, nat_le, ◌&&◌, IfSome, option_map};
ghost use Rattle.ota_core.specs.KeyBytes.{is_key_length};
ghost use Rattle.toml.specs.Data.{as_bool, get_member};
ghost use Rattle.toml.specs.View.{view, table_view};
ghost use Rattle.plan_reader.specs.Hexadecimal.{octets_of};
ghost use Rattle.plan_reader.specs.FieldValue.{natural_in, number_in, octets_in, key_of, key_in, five_octets, counter_of, counter_in, mode_of_word, mode_in, needed, defaulted};

use crate::hexadecimals::read_octets;
use ota_core::{Counter, KeyBytes, Mode, Tar};
use toml::{Table, Value};

/// The greatest number of octets in a key.
const LONGEST_KEY: usize = 32;

/// The value at a name.
pub(crate) fn value_at<'a>(entry: &'a Table, name: &str) -> Option<&'a Value>
    ensures { option_map (λ value. view value.now) result ≡ get_member name.now (table_view entry.now) }
{
    entry.get(name)
}

/// The number from `least` to `most` that has to stand at a name.
pub(crate) fn number_at(entry: &Table, name: &str, least: u64, most: u64) -> Option<u64>
    ensures read { result ≡ needed (number_in least most) name.now (table_view entry.now) }
    ensures above { IfSome result (λ number. least ≤ number) }
    ensures below { IfSome result (λ number. number ≤ most) }
{
    match value_at(entry, name) {
        Some(value) => number_in(value, least, most),
        None => None,
    }
}

/// The number from `least` to `most` at a name, or its default.
pub(crate) fn number_or(
    entry: &Table,
    name: &str,
    default: u64,
    least: u64,
    most: u64,
) -> Option<u64>
    requires { default ≤ most }
    ensures read { result ≡ defaulted default (number_in least most) name.now (table_view entry.now) }
    ensures below { IfSome result (λ number. number ≤ most) }
{
    match value_at(entry, name) {
        Some(value) => number_in(value, least, most),
        None => Some(default),
    }
}

/// The three octets at a name, or their default.
pub(crate) fn tar_or(entry: &Table, name: &str, default: Tar) -> Option<Tar>
    ensures { result ≡ defaulted default (octets_in 3) name.now (table_view entry.now) }
{
    match value_at(entry, name) {
        Some(value) => tar_in(value),
        None => Some(default),
    }
}

/// The key that has to stand at a name.
pub(crate) fn key_at(entry: &Table, name: &str) -> Option<KeyBytes>
    ensures { result ≡ needed key_in name.now (table_view entry.now) }
{
    match value_at(entry, name) {
        Some(value) => key_in(value),
        None => None,
    }
}

/// The truth value at a name, or its default.
pub(crate) fn truth_or(entry: &Table, name: &str, default: bool) -> Option<bool>
    ensures { result ≡ defaulted default as_bool name.now (table_view entry.now) }
{
    match value_at(entry, name) {
        Some(value) => value.as_bool(),
        None => Some(default),
    }
}

/// The mode at a name, or its default.
pub(crate) fn mode_or(entry: &Table, name: &str, default: Mode) -> Option<Mode>
    ensures { result ≡ defaulted default mode_in name.now (table_view entry.now) }
{
    match value_at(entry, name) {
        Some(value) => mode_in(value),
        None => Some(default),
    }
}

/// The counter at a name, or its default.
pub(crate) fn counter_or(entry: &Table, name: &str, default: Counter) -> Option<Counter>
    ensures { result ≡ defaulted default counter_in name.now (table_view entry.now) }
{
    match value_at(entry, name) {
        Some(value) => counter_in(value),
        None => Some(default),
    }
}

#[tactic(auto, unfolding(crate::specs::FieldValue::number_in))]
fn number_in(value: &Value, least: u64, most: u64) -> Option<u64>
    ensures read { result ≡ number_in least most (view value.now) }
    ensures above { IfSome result (λ number. least ≤ number) }
    ensures below { IfSome result (λ number. number ≤ most) }
{
    match value.as_integer() {
        Some(number) => natural_in(number, least, most),
        None => None,
    }
}

fn natural_in(number: i64, least: u64, most: u64) -> Option<u64>
    ensures read { result ≡ natural_in least most number }
    ensures above { IfSome result (λ natural. least ≤ natural) }
    ensures below { IfSome result (λ natural. natural ≤ most) }
{
    if number < 0 {
        return None;
    }
    let natural = number as u64;
    if is_within(natural, least, most) {
        Some(natural)
    } else {
        None
    }
}

fn is_within(number: u64, least: u64, most: u64) -> bool
    ensures { result ≡ (nat_le least number && nat_le number most) }
{
    least <= number && number <= most
}

#[tactic(auto, unfolding(crate::specs::FieldValue::octets_in))]
fn tar_in(value: &Value) -> Option<Tar>
    ensures { result ≡ octets_in 3 (view value.now) }
{
    match value.as_str() {
        Some(digits) => tar_of(digits.as_bytes()),
        None => None,
    }
}

/// The three octets that six hexadecimal digits write.
pub(crate) fn tar_of(digits: &[u8]) -> Option<Tar>
    ensures { result ≡ octets_of 3 digits.now }
{
    let mut octets = [0; 3];
    read_octets(digits, &mut octets)?;
    Some(Tar(octets))
}

#[tactic(auto, unfolding(crate::specs::FieldValue::key_in))]
fn key_in(value: &Value) -> Option<KeyBytes>
    ensures { result ≡ key_in (view value.now) }
{
    match value.as_str() {
        Some(digits) => key_of(digits.as_bytes()),
        None => None,
    }
}

/// The key that 32, 48 or 64 hexadecimal digits write.
#[tactic(auto, unfolding(crate::specs::FieldValue::key_of))]
fn key_of(digits: &[u8]) -> Option<KeyBytes>
    ensures { result ≡ key_of digits.now }
{
    let len = digits.len() / 2;
    if !is_key_length(len) {
        return None;
    }
    let mut octets = [0; LONGEST_KEY];
    read_octets(digits, &mut octets[..len])?;
    KeyBytes::new(&octets[..len]).ok()
}

fn is_key_length(len: usize) -> bool
    ensures { result ≡ is_key_length len }
{
    len == 16 || len == 24 || len == 32
}

#[tactic(auto, unfolding(crate::specs::FieldValue::counter_in))]
fn counter_in(value: &Value) -> Option<Counter>
    ensures { result ≡ counter_in (view value.now) }
{
    match value.as_str() {
        Some(digits) => counter_of(digits.as_bytes()),
        None => None,
    }
}

/// The counter that ten hexadecimal digits write.
#[tactic(auto, unfolding(crate::specs::FieldValue::counter_of))]
fn counter_of(digits: &[u8]) -> Option<Counter>
    ensures { result ≡ counter_of digits.now }
{
    let mut octets = [0; 5];
    read_octets(digits, &mut octets)?;
    Some(Counter(five_octets(octets)))
}

fn five_octets(octets: [u8; 5]) -> u64
    ensures value { result ≡ five_octets octets }
    ensures small { result < 2 ^ 40 }
{
    u64::from(octets[0]) * 4_294_967_296
        + u64::from(octets[1]) * 16_777_216
        + u64::from(octets[2]) * 65_536
        + u64::from(octets[3]) * 256
        + u64::from(octets[4])
}

#[tactic(auto, unfolding(crate::specs::FieldValue::mode_in))]
fn mode_in(value: &Value) -> Option<Mode>
    ensures { result ≡ mode_in (view value.now) }
{
    match value.as_str() {
        Some(word) => mode_of_word(word),
        None => None,
    }
}

#[tactic(auto, unfolding(crate::specs::FieldValue::mode_of_word))]
fn mode_of_word(word: &str) -> Option<Mode>
    ensures { result ≡ mode_of_word word.now }
{
    if word == "higher" {
        Some(Mode::Higher)
    } else if word == "next" {
        Some(Mode::Next)
    } else {
        None
    }
}
