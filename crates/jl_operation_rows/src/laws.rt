//! Laws over the definitions; each is the contract of a function that does nothing.
ghost use Rattle.std.specs.Prelude.{◌≡◌, ◌<◌, [], ℕ, All, Contains, List, length};
ghost use Rattle.jl_text.specs.Places.{line_table};
ghost use Rattle.jl_text.specs.declared.span.Span.{Span};
ghost use Rattle.jl_token.specs.Tokens.{Tokens};
ghost use Rattle.jl_token.specs.declared.token.Token.{Token};
ghost use Rattle.jl_ast.specs.Spans.{map_spans, without_spans};
ghost use Rattle.jl_ast.specs.Tree.{Program};
ghost use Rattle.jl_grammar.specs.Program.{Reads};
ghost use Rattle.jl_effects.specs.Running.{state_of};
ghost use Rattle.jl_meaning.specs.Mean.{mean, run_of};
ghost use Rattle.jl_op.specs.Chosen.{Kinds};
ghost use Rattle.jl_op.specs.IdMap.{id_map, operation_ids};
ghost use Rattle.jl_op.specs.Kinds.{kind_of};
ghost use Rattle.jl_op.specs.Map.{BeginsIn};
ghost use Rattle.jl_operation_rows.specs.InText.{LiesIn};
ghost use Rattle.jl_operation_rows.specs.Places.{OneByOne, PerformedAt, SameRow};
ghost use Rattle.jl_operation_rows.specs.Rows.{HasRow};
ghost use Rattle.jl_operation_rows.specs.Seeing.{SeesValues};
ghost use Rattle.jl_scope.specs.EarlyErrors.{early_errors_of};
ghost use Rattle.jl_simulation.specs.Weaving.{woven_program};

use jl_simulation::laws::accepted_scripts_simulate;
use jl_token::laws::spans_are_in_order;

/// Each operation that a run performs has a row of its kind in the map of the program: that which its id names. So it
/// is of any program, with however many steps.
pub fn operations_have_rows<S>()
    ensures { (chosen : Kinds) (p : Program S) (n : ℕ) → All (HasRow p) (state_of (mean chosen p n)).operations }
{}

/// So does each operation that the hooks of its woven script tell of, for any set of kinds, where the script is read of
/// fewer than 2^30 - 1 tokens and has no early errors.
pub fn hooks_have_rows()
    ensures { (chosen : Kinds) (ts : List Token) (limit : ℕ) (p : Program Span) → Reads ts limit p
        → early_errors_of p ≡ [] → length ts < 1073741823 → (n : ℕ)
        → All (HasRow p) (state_of (mean chosen (woven_program chosen p) n)).hooks }
{
    accepted_scripts_simulate();
}

/// Each value that an operation of a run sees has the class that it has among some objects. So a value that is no
/// object is seen with the class Primitive.
pub fn operations_see_values<S>()
    ensures { (chosen : Kinds) (p : Program S) (n : ℕ) → All SeesValues (state_of (mean chosen p n)).operations }
{}

/// So does each operation that the hooks of its woven script tell of, where the script is as above.
pub fn hooks_see_values()
    ensures { (chosen : Kinds) (ts : List Token) (limit : ℕ) (p : Program Span) → Reads ts limit p
        → early_errors_of p ≡ [] → length ts < 1073741823 → (n : ℕ)
        → All SeesValues (state_of (mean chosen (woven_program chosen p) n)).hooks }
{
    accepted_scripts_simulate();
}

/// Whatever numbers the places of the nodes are, ids or others: each operation is performed with a number that the
/// definition of the map makes of the place of a node that does an operation of its kind. So where the places are those
/// of the text, as `map_spans` gives them, it tells at which node an operation is performed.
pub fn operations_are_numbered_by_their_nodes()
    ensures { (chosen : Kinds) (p : Program ℕ) (n : ℕ)
        → All (λ o. Contains (operation_ids p) (kind_of o.1, o.0.0)) (state_of (run_of chosen p n)).operations }
{}

/// Programs that are the same but for their places perform the same operations, one by one, whatever numbers their
/// places are and with however many steps; and both numbers of an operation stand in one row, which is of its kind.
pub fn operations_have_the_same_rows()
    ensures { (chosen : Kinds) (p q : Program ℕ) → without_spans p ≡ without_spans q → (n : ℕ)
        → OneByOne (SameRow p q) (state_of (run_of chosen p n)).operations (state_of (run_of chosen q n)).operations }
{}

/// Each operation that a run performs has the row that its id names, and that row shows the node that performs it: the
/// node whose number the operation has where the places of nodes are numbers, whichever these are. The row of a test
/// shows the tested expression, and the number is that of the node which decides by it.
pub fn rows_show_the_nodes<S>()
    ensures { (chosen : Kinds) (p : Program S) (number : S → ℕ) (n : ℕ)
        → OneByOne (PerformedAt p number) (state_of (mean chosen p n)).operations
        (state_of (run_of chosen (map_spans number p) n)).operations }
{}

/// Where a program is read from the tokens of a text, each part that its map shows begins and ends in the text; so it
/// has a line and a column there, as `jl_op::map_text` and `jl_report::report` require.
pub fn rows_lie_in_the_text()
    ensures lies { (text : List ℕ) (ts : List Token) (limit : ℕ) (p : Program Span) → Tokens text ts
        → Reads ts limit p → All (LiesIn (length text)) (id_map p) }
    ensures begins { (text : List ℕ) (ts : List Token) (limit : ℕ) (p : Program Span) → Tokens text ts
        → Reads ts limit p → All (BeginsIn (line_table text)) (id_map p) }
{
    spans_are_in_order();
}
