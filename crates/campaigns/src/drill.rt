ghost use Rattle.std.specs.Prelude.{◌≡◌, ◌<◌, ◌+◌, ◌*◌, ◌^◌, ◌++◌, ℕ, string_bytes, IfOk, OnOk};
ghost use Rattle.std.specs.List.{flat_map, range_with_len};
ghost use Rattle.hex.specs.Hex.{encode_lower};
ghost use Rattle.campaigns.specs.Drill.{next_state, top_octet, state_at, draws, campaign_line, card_lines, keyset_lines, kic_lines, kid_line, last_quote, card_table, number_digits, keyset_table, plan_text, jobs_header, file_tar, other_tar, tar_of, script_front, script_middle, job_line, jobs_text};

use ota_core::Memory;
use std::alloc::Global;

/// The text of a plan for drills: campaign 1 and `cards` cards, numbered from 1, each with keyset 1, whose keys are drawn
/// from `number`. The KID of each card begins with its number, so that no two are one.
pub fn drill_plan(alloc: Global, number: u64, cards: u32) -> Result<Vec<u8>, Memory>
    ensures { IfOk result (λ text. text.items ≡ plan_text number cards) }
{
    let mut text = String::from_str(alloc, campaign_line())?;
    put_cards(&mut text, cards)?;
    put_keysets(&mut text, number, cards)?;
    Ok(text.into_bytes())
}

/// The text of `count` jobs for drills, numbered from 1, on the cards of `drill_plan` in turn. Each writes a record that
/// is drawn from `number`; every 50th is for an application that the cards don't have.
pub fn drill_jobs(alloc: Global, number: u64, cards: u32, count: u32) -> Result<Vec<u8>, Memory>
    requires { 0 < cards }
    ensures { IfOk result (λ text. text.items ≡ jobs_text number cards count) }
{
    let mut text = String::from_str(alloc, jobs_header())?;
    let mut state = number;
    for before in 0..count {
        put_job(&mut text, &mut state, cards, before)?;
    }
    Ok(text.into_bytes())
}

fn put_cards(text: &mut String, cards: u32) -> Result<(), Memory>
    ensures { OnOk result (string_bytes text.new ≡ string_bytes text.old ++ flat_map card_table (range_with_len 0 cards)) }
{
    for before in 0..cards {
        put_card(text, before)?;
    }
    Ok(())
}

/// The table of a card.
fn put_card(text: &mut String, before: u32) -> Result<(), Memory>
    requires { before + 1 < 2 ^ 32 }
    ensures { OnOk result (string_bytes text.new ≡ string_bytes text.old ++ card_table before) }
{
    let card = before + 1;
    text.push_str(card_lines())?;
    write!(text, "{card}\n")?;
    Ok(())
}

fn put_keysets(text: &mut String, number: u64, cards: u32) -> Result<(), Memory>
    ensures { OnOk result (string_bytes text.new ≡ string_bytes text.old ++ flat_map (keyset_table number) (range_with_len 0 cards)) }
{
    let mut state = number;
    for before in 0..cards {
        put_keyset(text, &mut state, before)?;
    }
    Ok(())
}

/// The table of a card's keyset.
fn put_keyset(text: &mut String, state: &mut u64, before: u32) -> Result<(), Memory>
    requires { before + 1 < 2 ^ 32 }
    ensures text { (number : ℕ) → state.old ≡ state_at number (24 * before) → OnOk result (string_bytes text.new ≡ string_bytes text.old ++ keyset_table number before) }
    ensures state { (number : ℕ) → state.old ≡ state_at number (24 * before) → OnOk result (state.new ≡ state_at number (24 * (before + 1))) }
{
    let card = u64::from(before) + 1;
    text.push_str(keyset_lines())?;
    write!(text, "{card}")?;
    text.push_str(kic_lines())?;
    put_draws(text, state, 16)?;
    text.push_str(kid_line())?;
    put_number(text, card)?;
    put_draws(text, state, 8)?;
    text.push_str(last_quote())?;
    Ok(())
}

/// A number in 8 octets.
#[tactic(auto, unfolding(crate::specs::Drill::number_digits))]
fn put_number(text: &mut String, number: u64) -> Result<(), Memory>
    ensures { OnOk result (string_bytes text.new ≡ string_bytes text.old ++ number_digits number) }
{
    put_hex(text, &number.to_be_bytes())
}

/// The line of a job.
fn put_job(text: &mut String, state: &mut u64, cards: u32, before: u32) -> Result<(), Memory>
    requires some { 0 < cards }
    requires fits { before + 1 < 2 ^ 32 }
    ensures text { (number : ℕ) → state.old ≡ state_at number (29 * before) → OnOk result (string_bytes text.new ≡ string_bytes text.old ++ job_line number cards before) }
    ensures state { (number : ℕ) → state.old ≡ state_at number (29 * before) → OnOk result (state.new ≡ state_at number (29 * (before + 1))) }
{
    let job = before + 1;
    let card = before % cards + 1;
    write!(text, "{job},{card}")?;
    text.push_str(tar_of(before))?;
    text.push_str(script_front())?;
    put_hex(text, &[draw(state) % 10 + 1])?;
    text.push_str(script_middle())?;
    put_draws(text, state, 28)?;
    text.push_str("\n")?;
    Ok(())
}

/// Octets that are drawn one after the other.
fn put_draws(text: &mut String, state: &mut u64, count: usize) -> Result<(), Memory>
    ensures text { (number before : ℕ) → state.old ≡ state_at number before → OnOk result (string_bytes text.new ≡ string_bytes text.old ++ encode_lower (draws number before count)) }
    ensures state { (number before : ℕ) → state.old ≡ state_at number before → OnOk result (state.new ≡ state_at number (before + count)) }
{
    for drawn in 0..count {
        put_hex(text, &[draw(state)])?;
    }
    Ok(())
}

/// Draws an octet: the top 8 bits of the state behind this one.
#[tactic(auto, unfolding(crate::specs::Drill::next_state, crate::specs::Drill::top_octet))]
fn draw(state: &mut u64) -> u8
    ensures state { state.new ≡ next_state state.old }
    ensures octet { result ≡ top_octet state.new }
{
    *state = state
        .wrapping_mul(6_364_136_223_846_793_005)
        .wrapping_add(1_442_695_040_888_963_407);
    (*state >> 56) as u8
}

fn put_hex(text: &mut String, octets: &[u8]) -> Result<(), Memory>
    ensures { OnOk result (string_bytes text.new ≡ string_bytes text.old ++ encode_lower octets.now) }
{
    let digits = hex::encode(*text.allocator(), octets)?;
    text.push_str(digits.as_str())?;
    Ok(())
}

/// The columns of the keyset and of the application.
fn tar_of(before: u32) -> &'static str
    requires { before + 1 < 2 ^ 32 }
    ensures { result.now ≡ tar_of before }
{
    if (before + 1) % 50 == 0 {
        other_tar()
    } else {
        file_tar()
    }
}

#[tactic(auto, unfolding(crate::specs::Drill::campaign_line))]
fn campaign_line() -> &'static str
    ensures { result.now ≡ campaign_line }
{
    "campaign = 1\n"
}

#[tactic(auto, unfolding(crate::specs::Drill::card_lines))]
fn card_lines() -> &'static str
    ensures { result.now ≡ card_lines }
{
    "[[card]]\nnumber = "
}

#[tactic(auto, unfolding(crate::specs::Drill::keyset_lines))]
fn keyset_lines() -> &'static str
    ensures { result.now ≡ keyset_lines }
{
    "[[keyset]]\ncard = "
}

#[tactic(auto, unfolding(crate::specs::Drill::kic_lines))]
fn kic_lines() -> &'static str
    ensures { result.now ≡ kic_lines }
{
    "\nkvn = 1\nkic = \""
}

#[tactic(auto, unfolding(crate::specs::Drill::kid_line))]
fn kid_line() -> &'static str
    ensures { result.now ≡ kid_line }
{
    "\"\nkid = \""
}

#[tactic(auto, unfolding(crate::specs::Drill::last_quote))]
fn last_quote() -> &'static str
    ensures { result.now ≡ last_quote }
{
    "\"\n"
}

#[tactic(auto, unfolding(crate::specs::Drill::jobs_header))]
fn jobs_header() -> &'static str
    ensures { result.now ≡ jobs_header }
{
    "job,card,kvn,tar,script\n"
}

#[tactic(auto, unfolding(crate::specs::Drill::file_tar))]
fn file_tar() -> &'static str
    ensures { result.now ≡ file_tar }
{
    ",1,b00010,"
}

#[tactic(auto, unfolding(crate::specs::Drill::other_tar))]
fn other_tar() -> &'static str
    ensures { result.now ≡ other_tar }
{
    ",1,b00011,"
}

#[tactic(auto, unfolding(crate::specs::Drill::script_front))]
fn script_front() -> &'static str
    ensures { result.now ≡ script_front }
{
    "00a40000027f1000a40000026f3a00dc"
}

#[tactic(auto, unfolding(crate::specs::Drill::script_middle))]
fn script_middle() -> &'static str
    ensures { result.now ≡ script_middle }
{
    "041c"
}
