// The rows of a profile: births by line, column and way.
ghost use Rattle.std.specs.Prelude.{◌≡◌, ◌≤◌, ◌<◌, ◌^◌, nat_eq, length, map, sum_by, option_map, All, IfOk};
ghost use Rattle.std.specs.BTreeMap.{keys, values};
ghost use Rattle.indexmap.specs.IndexSet.{contains};
ghost use Rattle.jl_op.specs.Map.{BeginsIn};
ghost use Rattle.jl_profile.specs.Births.{keyed_births, sorted_keys, row_at};
ghost use Rattle.jl_profile.specs.inner.Rows.{count_at, listed};

use crate::births::{Births, Way};
use crate::profile::Birth;
use indexmap::{IndexMap, IndexSet};
use jl_op::{OpId, OpMap};
use jl_text::{Lines, Span};
use std::alloc::{AllocError, Global};
use std::collections::BTreeMap;

/// A line, a column and a way, by which births are counted.
pub(crate) type Key = (u32, u32, Way);

/// How many births there are, and how many of objects that are never used.
#[derive(Clone, Copy)]
pub(crate) struct Count {
    pub(crate) made: u64,
    pub(crate) unused: u64,
}

/// The births whose ids have a place in the source, with their keys.
pub(crate) fn keyed(
    alloc: Global,
    born: &IndexMap<usize, Birth>,
    map: &OpMap,
    lines: &Lines,
) -> Result<Vec<(Key, usize)>, AllocError>
    requires { All (BeginsIn lines.now) map.now }
    ensures { IfOk result (λ births. births.items ≡ keyed_births lines.now map.now born.now.entries) }
{
    let mut births = Vec::new(alloc);
    for (object, birth) in born {
        if let Some(span) = place(map, birth.id) {
            let (line, column) = lines.line_col(span.from);
            births.push(((line, column, birth.way), *object))?;
        }
    }
    Ok(births)
}

/// The part of the source that does the operation with this id, if the map has it.
fn place(map: &OpMap, id: OpId) -> Option<Span>
    ensures { result ≡ option_map (λ row. row.1) (row_at map.now id.0) }
{
    if id.0 == 0 || id.0 > map.len() {
        return None;
    }
    Some(map.place_of(id))
}

/// The numbers of births, by key.
pub(crate) fn count_births(
    alloc: Global,
    births: &[(Key, usize)],
    used: &IndexSet<usize>,
) -> Result<BTreeMap<Key, Count>, AllocError>
    ensures all { IfOk result (λ counts. keys counts ≡ sorted_keys births.now) }
    ensures counted { IfOk result (λ counts.
        All (λ e. e.1 ≡ count_at (contains nat_eq used.now) births.now e.0) counts.entries) }
    ensures made { IfOk result (λ counts. sum_by (λ x. x.made) (values counts) ≤ length births.now) }
    ensures unused { IfOk result (λ counts. sum_by (λ x. x.unused) (values counts) ≤ length births.now) }
{
    let mut counts = BTreeMap::new(alloc);
    for (key, object) in births {
        let before = counts
            .get(key)
            .copied()
            .unwrap_or(Count { made: 0, unused: 0 });
        let unused = u64::from(!used.contains(object));
        let count = Count {
            made: before.made + 1,
            unused: before.unused + unused,
        };
        counts.insert(*key, count)?;
    }
    Ok(counts)
}

/// Numbers of births as rows.
pub(crate) fn list(alloc: Global, counts: &BTreeMap<Key, Count>) -> Result<Vec<Births>, AllocError>
    ensures { IfOk result (λ births. births.items ≡ map listed counts.now.entries) }
{
    let mut births = Vec::new(alloc);
    for ((line, column, way), count) in counts {
        births.push(Births {
            line: *line,
            column: *column,
            way: *way,
            made: count.made,
            unused: count.unused,
        })?;
    }
    Ok(births)
}
