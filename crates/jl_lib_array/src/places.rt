//! Where turns begin, and their indices.
ghost use Rattle.std.specs.Prelude.{◌≡◌, ◌+◌, ◌-◌, IfOk};
ghost use Rattle.jl_lib_array.specs.inner.Places.{direction_of, index_at, index_below};
ghost use Rattle.jl_meaning.specs.Conversions.{integer_of};
ghost use Rattle.jl_meaning.specs.builtins.Array.{indices_up_to};
ghost use Rattle.jl_progress.specs.ArrayCalls.{first_place, next_place, place_from};

use jl_builtin::{integer_of, relative_index};
use jl_num::Num;
use jl_progress::{Direction, Task};
use jl_text::NoMemory;

/// The index of the turn that begins at a place, if there is one.
pub(crate) fn index_at(direction: Direction, at: usize, length: usize) -> Option<usize>
    ensures { result ≡ index_at direction at length }
{
    match direction {
        Direction::Up => { if at < length { Some(at) } else { None } }
        Direction::Down => index_below(at),
    }
}

/// The index below a place, if there is one.
fn index_below(at: usize) -> Option<usize>
    ensures { result ≡ index_below at }
{
    if at == 0 {
        return None;
    }
    Some(at - 1)
}

/// Where the first of all turns begins.
pub(crate) fn first_place(direction: Direction, length: usize) -> usize
    ensures { result ≡ first_place direction length }
{
    match direction {
        Direction::Up => 0,
        Direction::Down => length,
    }
}

/// Where the turn begins that follows the one at an index.
pub(crate) fn next_place(direction: Direction, index: usize) -> Result<usize, NoMemory>
    ensures { IfOk result (λ at. at ≡ next_place direction index) }
{
    match direction {
        Direction::Up => next_index(index),
        Direction::Down => Ok(index),
    }
}

/// Where the first turn of a search begins (15.4.4.14, steps 6 to 8; 15.4.4.15, steps 6 and 7).
pub(crate) fn place_from(direction: Direction, n: Num, length: usize) -> usize
    ensures { result ≡ place_from direction (integer_of n) length }
{
    match direction {
        Direction::Up => relative_index(n, length),
        Direction::Down => indices_up_to(length, n),
    }
}

/// How many indices there are from 0 up to the one that a number says.
fn indices_up_to(length: usize, n: Num) -> usize
    ensures { result ≡ indices_up_to length (integer_of n) }
{
    let z = integer_of(n);
    if z < 0 {
        return less(length, z.unsigned_abs() - 1);
    }
    match usize::try_from(z) {
        Ok(index) if index < length => index + 1,
        _ => length,
    }
}

/// A length without so many at its end.
fn less(length: usize, size: u64) -> usize
    ensures { result ≡ length - size }
{
    match usize::try_from(size) {
        Ok(size) => length.saturating_sub(size),
        Err(_) => 0,
    }
}

/// The index after another one. No memory holds more elements than there are indices.
pub(crate) fn next_index(index: usize) -> Result<usize, NoMemory>
    ensures { IfOk result (λ next. next ≡ index + 1) }
{
    sum(index, 1)
}

/// The index that is so many after another one. No memory holds more elements than there are indices.
pub(crate) fn sum(index: usize, more: usize) -> Result<usize, NoMemory>
    ensures { IfOk result (λ next. next ≡ index + more) }
{
    match index.checked_add(more) {
        Some(next) => Ok(next),
        None => Err(NoMemory),
    }
}

/// Whether the turns of a task go up or down.
pub(crate) fn direction_of(task: &Task) -> Direction
    ensures { result ≡ direction_of task.now }
{
    match task {
        Task::Reduce { direction, .. } => *direction,
        _ => Direction::Up,
    }
}
