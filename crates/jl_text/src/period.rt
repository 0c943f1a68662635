// The period of a part's greatest suffix, found while it is read.
ghost use Rattle.std.specs.Prelude.{◌≡◌, ◌+◌, ◌<◌, ◌≤◌};
ghost use Rattle.jl_text.specs.Limits.{most_units};
ghost use Rattle.jl_text.specs.inner.Seeking.{IsGreatest, IsPeriod};

use crate::ends::Units;

/// Where the greatest suffix of `part` starts. It reads no unit more than four times.
pub(crate) fn greatest_suffix<U: Units>(part: U) -> usize
    requires { U.size part ≤ most_units }
    ensures within { result ≤ U.size part }
    ensures greatest { IsGreatest (U.unit part) result (U.size part) }
{
    let mut start = 0;
    let mut period = 1;
    let mut end = 0;
    while end < part.len() {
        if start < end && part.at(end - period) < part.at(end) {
            start = end - (end - start) % period;
            period = 1;
            end = start;
        } else {
            period = next_period(part, start, period, end);
            end += 1;
        }
    }
    start
}

/// The least period of the units from `start` to the one at `end`, where `period` is that of the units before it.
pub(crate) fn next_period<U: Units>(part: U, start: usize, period: usize, end: usize) -> usize
    requires short { U.size part ≤ most_units }
    requires inside { end < U.size part }
    requires before { IsPeriod (U.unit part) start end period }
    requires greatest { IsGreatest (U.unit part) start (end + 1) }
    ensures { IsPeriod (U.unit part) start (end + 1) result }
{
    if end == start || part.at(end) == part.at(end - period) {
        return period;
    }
    end + 1 - start
}
