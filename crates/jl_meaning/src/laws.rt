//! Laws over the definitions; each is the contract of a function that does nothing.
ghost use Rattle.std.specs.Prelude.{◌≡◌, ℕ, ◌+◌, map};
ghost use Rattle.jl_ast.specs.Spans.{without_spans};
ghost use Rattle.jl_ast.specs.Table.{table};
ghost use Rattle.jl_ast.specs.Tree.{Program};
ghost use Rattle.jl_effects.specs.Effects.{job};
ghost use Rattle.jl_effects.specs.Growing.{IsLonger};
ghost use Rattle.jl_effects.specs.Keeping.{FailsAllowed};
ghost use Rattle.jl_effects.specs.Matching.{IsWithin};
ghost use Rattle.jl_effects.specs.Following.{IsAny, CallsFollow, PartFollows};
ghost use Rattle.jl_effects.specs.Running.{Recorded, RunState, run};
ghost use Rattle.jl_effects.specs.Traces.{keep_hooks, with_state};
ghost use Rattle.jl_meaning.specs.FunctionTable.{function_table};
ghost use Rattle.jl_meaning.specs.Mean.{IsNoMisuse, language, mean};
ghost use Rattle.jl_meaning.specs.Parts.{Algorithm, Call, CallOf, Job, lift, Part};
ghost use Rattle.jl_meaning.specs.Store.{Store};
ghost use Rattle.jl_op.specs.Chosen.{every_kind, is_kept, Kinds};
ghost use Rattle.jl_op.specs.Operations.{Operation};
ghost use Rattle.jl_value.specs.declared.ending.Completion.{Completion};

/// A run that is over is the same with more steps, but that more are left; and what one that is spent has printed,
/// performed and emitted are prefixes of what it has with more steps.
pub fn more_budget<S>()
    ensures { (chosen : Kinds) (p : Program S) (n d : ℕ) → IsLonger d (mean chosen p n) (mean chosen p (n + d)) }
{}

/// Only the hooks of a run depend on the chosen kinds: they are those of the run for all kinds that are of chosen ones.
pub fn kept_hooks<S>()
    ensures { (kinds : Kinds) (p : Program S) (n : ℕ)
        → mean kinds p n ≡ with_state (keep_hooks (is_kept kinds)) (mean every_kind p n) }
{}

/// What a program means doesn't depend on where its nodes stand.
pub fn spans_do_not_matter<S>()
    ensures { (kinds : Kinds) (p q : Program S) → without_spans p ≡ without_spans q → (n : ℕ)
        → mean kinds p n ≡ mean kinds q n }
{}

/// The functions by number are those of the program's table.
pub fn functions_are_the_table()
    ensures { (p : Program ℕ) → map (λ f. f.func) (function_table p) ≡ table p }
{}

/// Where calls follow, so do builtins and all algorithms of the standard: they come to the same with the second meaning
/// of jobs as with the first, in no fewer steps and at most 32 times as many, with the operations of chosen kinds as
/// hooks, and are spent with fewer or where the first is. If besides, where the second is spent, output and hooks of
/// the calls are prefixes of the output and of the operations of chosen kinds of the first, so are those of the
/// algorithms.
pub fn rows_follow_calls<A>()
    ensures follows { (chosen : Kinds) (first second : Job → Part Completion)
        → CallsFollow language (is_kept chosen) IsAny CallOf first second → (p : Algorithm A)
        → PartFollows language (is_kept chosen) IsAny first second (lift p) }
    ensures within { (chosen : Kinds) (first second : Job → Part Completion)
        → CallsFollow language (is_kept chosen) (IsWithin (is_kept chosen)) CallOf first second → (p : Algorithm A)
        → PartFollows language (is_kept chosen) (IsWithin (is_kept chosen)) first second (lift p) }
{}

/// No builtin, and no algorithm of the standard, ends a run by the fault Misuse, where no call that it makes does.
pub fn rows_never_misuse<A>()
    ensures { (k : Recorded Operation) (jobs : Job → Part Completion)
        → ((c : Call) (n : ℕ) (w : RunState Store Operation)
        → FailsAllowed IsNoMisuse (run language k jobs n (job (CallOf c)) w))
        → (p : Algorithm A) (n : ℕ) (w : RunState Store Operation)
        → FailsAllowed IsNoMisuse (run language k jobs n (lift p) w) }
{}
