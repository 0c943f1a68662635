//! What is left of a list of the tree.
ghost use Rattle.std.specs.Prelude.{◌≡◌, ◌∷◌, [], MatchOption, length, drop};
ghost use Rattle.jl_state.specs.Trees.{items_left};

use jl_text::List;

/// The items of a list from an index on.
#[derive(Drop)]
pub struct Remaining<'p, T> {
    pub list: &'p List<T>,
    pub from: usize,
}

/// The first of the items that are left, if there is one, and those after it.
pub fn split_first<'p, T>(items: Remaining<'p, T>) -> Option<(&'p T, Remaining<'p, T>)>
    ensures { MatchOption result (items_left items.entry ≡ []) (λ r. items_left items.entry
        ≡ r.0.now ∷ items_left r.1) }
{
    let list = items.list.items();
    let first = list.get(items.from)?;
    Some((
        first,
        Remaining {
            list: items.list,
            from: items.from + 1,
        },
    ))
}
