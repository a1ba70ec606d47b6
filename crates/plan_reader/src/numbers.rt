ghost use Rattle.std.specs.Prelude.{◌≡◌, ◌≤◌, length, IsTrue, IfSome};
ghost use Rattle.std.specs.Str.Parse.{digits_value};
ghost use Rattle.plan_reader.specs.Number.{number_of, is_numeral, are_digits};

/// The number of at most `most` that a numeral of at most `width` digits writes; zeros may stand in front.
#[tactic(auto, unfolding(crate::specs::Number::number_of))]
pub fn number(digits: &[u8], width: usize, most: u64) -> Option<u64>
    requires { width ≤ 18 }
    ensures read { result ≡ number_of width most digits.now }
    ensures below { IfSome result (λ number. number ≤ most) }
{
    if !is_numeral(digits, width) {
        return None;
    }
    let number = value(digits);
    if number <= most { Some(number) } else { None }
}

fn is_numeral(digits: &[u8], width: usize) -> bool
    ensures { result ≡ is_numeral width digits.now }
{
    are_digits(digits) && !digits.is_empty() && digits.len() <= width
}

fn are_digits(digits: &[u8]) -> bool
    ensures { result ≡ are_digits digits.now }
{
    digits.iter().all(|digit| digit.is_ascii_digit())
}

/// The number that at most 18 digits write.
fn value(digits: &[u8]) -> u64
    requires digits { IsTrue (are_digits digits.now) }
    requires short { length digits.now ≤ 18 }
    ensures { result ≡ digits_value 10 digits.now }
{
    let mut value = 0;
    for digit in digits {
        value = value * 10 + u64::from(*digit - b'0');
    }
    value
}
