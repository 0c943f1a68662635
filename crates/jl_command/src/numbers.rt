//! Numbers among the words.
ghost use Rattle.std.specs.Prelude.{◌≡◌, option_map};
ghost use Rattle.std.specs.Char.{is_ascii_digit};
ghost use Rattle.std.specs.List.{list_all};
ghost use Rattle.jl_command.specs.Asked.{at_most, budget_in, is_number, number_in, soak_number};

/// The budget where none is given.
const BUDGET: u64 = 1_000_000;

/// The greatest budget.
const MOST_BUDGET: u64 = 1_000_000_000;

/// The most functions of the script that `soak` makes.
const MOST_FUNCTIONS: u64 = 8000;

/// The most digits of a number.
const MOST_DIGITS: usize = 10;

/// The budget, where the option has this value or is not given.
pub(crate) fn budget_in(value: Option<&str>) -> Option<u64>
    ensures { result ≡ budget_in (option_map (λ s. s.now) value.entry) }
{
    match value {
        Some(text) => number_up_to(text, MOST_BUDGET),
        None => Some(BUDGET),
    }
}

/// The number of functions, where the option has this value.
pub(crate) fn soak_number(value: Option<&str>) -> Option<u32>
    ensures { result ≡ soak_number (option_map (λ s. s.now) value.entry) }
{
    let number = number_up_to(value?, MOST_FUNCTIONS)?;
    Some(number as u32)
}

/// The number that a text is, where it is at most this.
fn number_up_to(text: &str, most: u64) -> Option<u64>
    ensures { result ≡ at_most most (number_in text.now) }
{
    let number = number_in(text)?;
    if number <= most { Some(number) } else { None }
}

/// The number that a text is.
fn number_in(text: &str) -> Option<u64>
    ensures { result ≡ number_in text.now }
{
    if !is_number(text) {
        return None;
    }
    match text.parse::<u64>() {
        Ok(number) => Some(number),
        Err(_) => None,
    }
}

/// Whether a text is one to ten decimal digits.
fn is_number(text: &str) -> bool
    ensures { result ≡ is_number text.now }
{
    !text.is_empty() && text.len() <= MOST_DIGITS && are_digits(text.as_bytes())
}

/// Whether all bytes are decimal digits.
fn are_digits(bytes: &[u8]) -> bool
    ensures { result ≡ list_all is_ascii_digit bytes.now }
{
    bytes.iter().all(|byte| byte.is_ascii_digit())
}
