ghost use Rattle.std.specs.Prelude.{◌≡◌, ◌+◌, length};
ghost use Rattle.std.specs.List.{range_with_len};
ghost use Rattle.jl_ast.specs.Spans.{without_spans};
ghost use Rattle.jl_ast.specs.Tree.{Program};
ghost use Rattle.jl_op.specs.IdMap.{id_map, ids_in, kinds_in, operation_ids};
ghost use Rattle.jl_op.specs.Ids.{id_count, program_with_ids};
ghost use Rattle.jl_op.specs.Kinds.{all_kinds};
ghost use Rattle.jl_op.specs.Laws.{EachKindOnce};

use crate::kind::OpKind;

/// `OpKind::ALL` has each kind once.
pub fn kinds_are_listed()
    ensures same { OpKind.ALL ≡ all_kinds }
    ensures once { EachKindOnce }
{}

/// The map of a program has an entry for each id that the program takes.
pub fn map_has_each_id<S>()
    ensures { (p : Program S) → length (id_map p) ≡ 2 + id_count p.body }
{}

/// The operations of a program have the ids 1, 2, 3 and so on, in the order of the map: no two have one id, and there
/// are as many as the map has entries.
pub fn ids_are_in_order<S>()
    ensures { (p : Program S) → ids_in (operation_ids (program_with_ids p)) ≡ range_with_len 1 (length (id_map p)) }
{}

/// Each operation is of the kind that the map has for its id.
pub fn ids_keep_kinds<S>()
    ensures { (p : Program S) → kinds_in (operation_ids (program_with_ids p)) ≡ kinds_in (id_map p) }
{}

/// Ids don't depend on where nodes stand.
pub fn places_keep_ids<S>()
    ensures { (p : Program S) → program_with_ids (without_spans p) ≡ program_with_ids p }
{}
