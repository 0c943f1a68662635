// Where one slice stands in another.
//
// A part is split before its greatest suffix, by the order of its units: "ba" is that of "aba". Where some units of the
// suffix stand at a place and the next does not, the suffix stands at no place less than a period of these units
// further on. No table of periods is wanted: the least period of a front of a greatest suffix is that of the front
// without its last unit, or the length of the front (M. Crochemore 1992, W. Rytter 2003).
ghost use Rattle.std.specs.Prelude.{◌≡◌, ◌≤◌, ◌<◌, ◌+◌, ◌↔◌, true, length, IfOk, IfErr};
ghost use Rattle.jl_text.specs.Limits.{most_units};
ghost use Rattle.jl_text.specs.Search.{first_place, last_place, IsFirstPlace, IsLastPlace};
ghost use Rattle.jl_text.specs.inner.Seeking.{Agrees, HasNone, IsLeast, IsLeastPlace};

use crate::ends::{FromBack, FromFront, Units};
use crate::period::{greatest_suffix, next_period};

/// The least place at or after `from` at which `part` stands.
pub(crate) fn first_place(units: &[u16], part: &[u16], from: usize) -> Option<usize>
    requires { length units.now ≤ most_units }
    ensures value { result ≡ first_place units.now part.now from }
    ensures least { IsFirstPlace units.now part.now from result }
{
    least_place(FromFront(units), FromFront(part), from)
}

/// The greatest place at or before `from` at which `part` stands.
pub(crate) fn last_place(units: &[u16], part: &[u16], from: usize) -> Option<usize>
    requires { length units.now ≤ most_units }
    ensures value { result ≡ last_place units.now part.now from }
    ensures greatest { IsLastPlace units.now part.now from result }
{
    if part.len() > units.len() {
        return None;
    }
    let last = units.len() - part.len();
    let place = least_place(FromBack(units), FromBack(part), last - from.min(last))?;
    Some(last - place)
}

/// The least place at or after `from` at which `part` stands, in time linear in both sizes.
fn least_place<U: Units>(units: U, part: U, from: usize) -> Option<usize>
    requires { U.size units ≤ most_units }
    ensures { IsLeastPlace (U.unit units) (U.unit part) (U.size units) (U.size part) from result }
{
    if part.len() > units.len() || from > units.len() - part.len() {
        return None;
    }
    if units.stands(part, from) {
        return Some(from);
    }
    match try_each(units, part, from) {
        Ok(at) => Some(at),
        Err(at) => place_by_suffix(units, part, at),
    }
}

/// Tries one place after another as long as that is quicker than to look for a greatest suffix: until it has looked
/// at a few times as many units as `part` has. Gives the place, or how far it came.
fn try_each<U: Units>(units: U, part: U, from: usize) -> Result<usize, usize>
    requires short { U.size units ≤ most_units }
    requires fits { from + U.size part ≤ U.size units }
    ensures found { IfOk result (IsLeast (U.unit units) (U.unit part) (U.size units) (U.size part) from) }
    ensures not_before { IfErr result (λ at. HasNone (U.unit units) (U.unit part) (U.size part) from at) }
{
    let last = units.len() - part.len();
    let mut budget = 4 * part.len() + 32;
    let mut at = from;
    while at <= last && budget > 0 {
        let front = common_front(units, part, at);
        if front == part.len() {
            return Ok(at);
        }
        budget = budget.saturating_sub(front + 1);
        at += 1;
    }
    Err(at)
}

/// How many units at the front of `part` stand at the place `at`.
fn common_front<U: Units>(units: U, part: U, at: usize) -> usize
    requires short { U.size units ≤ most_units }
    requires fits { at + U.size part ≤ U.size units }
    ensures within { result ≤ U.size part }
    ensures same { Agrees (U.unit units) (U.unit part) at 0 result }
    ensures differs { result < U.size part → ¬ (U.unit units (at + result) ≡ U.unit part result) }
{
    for k in 0..part.len() {
        if units.at(at + k) != part.at(k) {
            return k;
        }
    }
    part.len()
}

/// The least place at or after `from` at which `part` stands, by the greatest suffix of `part`.
fn place_by_suffix<U: Units>(units: U, part: U, from: usize) -> Option<usize>
    requires short { U.size units ≤ most_units }
    requires fits { U.size part ≤ U.size units }
    ensures { IsLeastPlace (U.unit units) (U.unit part) (U.size units) (U.size part) from result }
{
    let last = units.len() - part.len();
    if from > last {
        return None;
    }
    let start = greatest_suffix(part);
    let mut at = from;
    let mut period = 1;
    let mut end = start;
    while at <= last {
        if end < part.len() && units.at(at + end) == part.at(end) {
            period = next_period(part, start, period, end);
            end += 1;
        } else if end == part.len() && stands_before(units, part, at, start) {
            return Some(at);
        } else {
            at += period;
            if end - start < 2 * period {
                period = 1;
                end = start;
            } else {
                end -= period;
            }
        }
    }
    None
}

/// Whether the first `end` units of `part` stand at the place `at`. They are read from the last on: where the suffix
/// behind them stands, and stood at an earlier place too, one that differs is met before that place.
fn stands_before<U: Units>(units: U, part: U, at: usize, end: usize) -> bool
    requires short { U.size units ≤ most_units }
    requires inside { at + end ≤ U.size units }
    requires of_part { end ≤ U.size part }
    ensures { (result ≡ true) ↔ Agrees (U.unit units) (U.unit part) at 0 end }
{
    for k in (0..end).rev() {
        if units.at(at + k) != part.at(k) {
            return false;
        }
    }
    true
}
