//! Callees of calls, members among them (11.2.2, 11.2.3).
ghost use Rattle.std.specs.Prelude.{[]};
ghost use Rattle.jl_ast.specs.View.{view_expressions};
ghost use Rattle.jl_meaning.specs.Expressions.{evaluate_all};
ghost use Rattle.jl_meaning.specs.forms.Calls.{call_member};
ghost use Rattle.jl_state.specs.Clauses.{Evaluates, RankAtMost, Resumes};
ghost use Rattle.jl_state.specs.Trees.{plain_forest};
ghost use Rattle.jl_state.specs.Words.{context_of, table_of};

use crate::arguments::start_arguments;
use crate::keys::call_by_key;
use jl_ast::Expr;
use jl_member::{member_name, quick_key};
use jl_state::{Act, ArgumentUse, Here, MemberUse, State, ValueFrame};
use jl_text::{List, NoMemory, Text};
use jl_value::{Value, share};

/// The callee of a call has been evaluated (11.2.2, 11.2.3).
pub fn step_callee<'p>(
    state: &mut State<'p>,
    this: Value,
    by_new: bool,
    args: &'p List<Expr>,
    here: Here,
    v: Value,
) -> Result<Act<'p>, NoMemory>
    ensures refines { Resumes state.old (ValueFrame.Callee this by_new args.entry here) v result state.new }
    ensures bounded { RankAtMost state.old 138 result state.new }
{
    let purpose = ArgumentUse::Invoke {
        callee: v,
        this,
        by_new,
    };
    start_arguments(state, purpose, args, 0, here)
}

/// The object of a method has been evaluated (11.2.3).
pub fn step_callee_dot_base<'p>(
    state: &mut State<'p>,
    key: &'p Text,
    args: &'p List<Expr>,
    here: Here,
    v: Value,
) -> Result<Act<'p>, NoMemory>
    ensures refines { Resumes state.old (ValueFrame.CalleeDotBase key.entry args.entry here) v result state.new }
    ensures bounded { RankAtMost state.old 202 result state.new }
{
    let alloc = state.alloc();
    let key = Value::Text(key.share(alloc)?);
    call_member(state, v, key, args, here)
}

/// The object of a method has been evaluated (11.2.3).
pub fn step_callee_index_base<'p>(
    state: &mut State<'p>,
    key: &'p Box<Expr>,
    args: &'p List<Expr>,
    here: Here,
    v: Value,
) -> Result<Act<'p>, NoMemory>
    ensures refines { Resumes state.old (ValueFrame.CalleeIndexBase key.entry args.entry here) v result state.new }
    ensures bounded { RankAtMost state.old 206 result state.new }
{
    let frame = ValueFrame::CalleeIndexKey {
        base: v,
        args,
        here,
    };
    state.evaluate(frame, key, here)
}

/// The key of a method has been evaluated (11.2.3).
pub fn step_callee_index_key<'p>(
    state: &mut State<'p>,
    base: Value,
    args: &'p List<Expr>,
    here: Here,
    v: Value,
) -> Result<Act<'p>, NoMemory>
    ensures refines { Resumes state.old (ValueFrame.CalleeIndexKey base args.entry here) v result state.new }
    ensures bounded { RankAtMost state.old 202 result state.new }
{
    call_member(state, base, v, args, here)
}

/// o[k](..), where o and k have been evaluated: the value of the member is got before the arguments are evaluated
/// (11.2.3).
#[tactic(auto, using(crate::proofs::Methods::calls_member))]
fn call_member<'p>(
    state: &mut State<'p>,
    base: Value,
    key: Value,
    args: &'p List<Expr>,
    here: Here,
) -> Result<Act<'p>, NoMemory>
    ensures refines { Evaluates state.old (call_member (table_of state.old.functions) 0 0 base key (evaluate_all
        (table_of state.old.functions) 0 [] (plain_forest (view_expressions args.now)) (context_of state.old.calls
        here))) result state.new }
    ensures bounded { RankAtMost state.old 182 result state.new }
{
    let alloc = state.alloc();
    if let Some(name) = quick_key(alloc, &base, &key)? {
        return call_by_key(state, base, args, here, name);
    }
    let object = share(alloc, &base)?;
    let purpose = MemberUse::Call { base, args, here };
    member_name(state, &object, key, purpose)
}
