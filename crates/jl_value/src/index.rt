ghost use Rattle.std.specs.Prelude.{◌≡◌, ◌<◌, ◌≤◌, ◌+◌, ◌*◌, ◌^◌, ◌-◌, MatchOption};
ghost use Rattle.jl_value.specs.Indices.{index_of};

/// The array index that these units are the digits of (15.4): a number below 2^32 - 1 with no 0 before it. It looks at
/// eleven units at most.
pub fn array_index(units: &[u16]) -> Option<u32>
    ensures { result ≡ index_of units.now }
{
    let [first, rest @ ..] = units else {
        return None;
    };
    let mut index = digit(*first)?;
    for unit in rest {
        index = with_digit(index, *unit)?;
    }
    if index < u32::MAX { Some(index) } else { None }
}

// The value of a decimal digit.
fn digit(unit: u16) -> Option<u32>
    ensures { MatchOption result (48 ≤ unit → 58 ≤ unit) (λ d. (d < 10) × (48 + d ≡ unit)) }
{
    match unit {
        48..=57 => Some(u32::from(unit) - 48),
        _ => None,
    }
}

// The number that has this digit after those of a number other than 0.
fn with_digit(number: u32, unit: u16) -> Option<u32>
    ensures { MatchOption result
        (0 < number → 48 ≤ unit → unit ≤ 57 → 2 ^ 32 ≤ number * 10 + (unit - 48))
        (λ n. (0 < number) × (48 ≤ unit) × (unit ≤ 57) × (n ≡ number * 10 + (unit - 48))) }
{
    if number == 0 {
        return None;
    }
    number.checked_mul(10)?.checked_add(digit(unit)?)
}
