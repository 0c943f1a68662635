//! The `for-in` statement (12.6.4).
ghost use Rattle.std.specs.Prelude.{◌≡◌, ◌≤◌, IfOk};
ghost use Rattle.jl_ast.specs.View.{view_statements};
ghost use Rattle.jl_meaning.specs.Completions.{◌>>=◌ as ◌then◌};
ghost use Rattle.jl_meaning.specs.Parts.{lift};
ghost use Rattle.jl_meaning.specs.References.{put_name};
ghost use Rattle.jl_meaning.specs.forms.Loops.{visit_next, visits_of};
ghost use Rattle.jl_meaning.specs.forms.Names.{is_hooks, unless_hooks};
ghost use Rattle.jl_state.specs.Clauses.{Executes, RankAtMost, ResumesStatement};
ghost use Rattle.jl_state.specs.StatementFrames.{loop_body};
ghost use Rattle.jl_state.specs.Trees.{plain_forest};
ghost use Rattle.jl_state.specs.Turns.{labels_seen};
ghost use Rattle.jl_state.specs.Words.{context_of, table_of};
ghost use Rattle.jl_statement.specs.inner.Turns.{visit_on};
ghost use Rattle.jl_statement.specs.inner.Visited.{IsNextName};

use crate::visits::{next_visit, visits_of};
use jl_algorithm::put_name;
use jl_ast::Stmt;
use jl_state::{Act, Boxed, Here, Labels, Loop, LoopTurn, State, StatementFrame, Visits};
use jl_store::{Answer, Store};
use jl_text::{List, NoMemory, Text, is_spelled};
use jl_value::{Completion, Fault, ObjId, Value, is_nothing};
use std::alloc::Global;

/// Whether a name is that of the object with the hooks.
#[tactic(auto, unfolding(jl_scope::specs::Names::hooks_name))]
fn is_hooks(name: &Text) -> bool
    ensures { result ≡ is_hooks name.now }
{
    is_spelled(name.units(), b"J$")
}

/// The variable of a `for-in` gets the name that is visited, and then its body begins.
pub(crate) fn put_visited<'p>(
    state: &mut State<'p>,
    turn: Boxed<LoopTurn<'p>>,
    variable: &'p Text,
    name: Text,
) -> Result<Act<'p>, NoMemory>
    ensures refines { Executes state.old (unless_hooks variable.now (lift (put_name turn.entry.here.strict
        turn.entry.here.env variable.now (Value.Text name))) then λ _. loop_body (table_of state.old.functions)
        state.old.calls turn.entry) result state.new }
    ensures left { IfOk result (λ _. state.new.left ≤ state.old.left) }
{
    if is_hooks(variable) {
        return Ok(Act::Fault(Fault::Misuse));
    }
    let here = turn.get().here;
    state.push_statement(StatementFrame::ForInBody { turn })?;
    put_name(
        state,
        here.strict,
        here.env,
        variable,
        Value::Text(name),
        Value::Undefined,
    )
}

/// The variable of a `for-in` and the name that it gets next, if there is one; the visits go on after it. Another loop
/// has none.
fn next_name<'p>(
    alloc: Global,
    store: &Store,
    kind: &mut Loop<'p>,
) -> Result<Option<(&'p Text, Text)>, NoMemory>
    ensures { IfOk result (λ next. IsNextName store.now.heap kind.old next kind.new) }
{
    match kind {
        Loop::ForIn {
            variable,
            visits,
            ..
        } => {
            let variable = *variable;
            match next_visit(alloc, store, visits.get_mut())? {
                None => Ok(None),
                Some(name) => Ok(Some((variable, name))),
            }
        }
        Loop::Do { .. } => Ok(None),
        Loop::While { .. } => Ok(None),
        Loop::For { .. } => Ok(None),
    }
}

/// A `for-in` takes a step, and goes on with the next property that is still there, if there is one.
pub(crate) fn visit_next<'p>(
    state: &mut State<'p>,
    turn: Boxed<LoopTurn<'p>>,
) -> Result<Act<'p>, NoMemory>
    ensures refines { Executes state.old (visit_on state.old.calls turn.entry) result state.new }
    ensures bounded { RankAtMost state.old 3 result state.new }
{
    let mut turn = turn;
    let alloc = state.alloc();
    match next_name(alloc, &state.store, &mut turn.get_mut().kind)? {
        None => Ok(Act::Complete(Completion::Normal)),
        Some((variable, name)) => {
            if !state.spend() {
                return Ok(Act::Spent);
            }
            put_visited(state, turn, variable, name)
        }
    }
}

/// A `for-in` goes on with the value that it waited for.
pub(crate) fn step_for_in_object<'p>(
    state: &mut State<'p>,
    variable: &'p Text,
    body: &'p List<Stmt>,
    here: Here,
    labels: Labels<'p>,
    v: Value,
) -> Result<Act<'p>, NoMemory>
    ensures refines { ResumesStatement state.old (StatementFrame.ForInObject variable.entry body.entry here
        labels.entry) v result state.new }
    ensures bounded { RankAtMost state.old 12 result state.new }
{
    if is_nothing(&v) {
        return Ok(Act::Complete(Completion::Normal));
    }
    match state.store.to_object(&v)? {
        Answer::Throws(thrown) => Ok(Act::Complete(Completion::Throw(thrown))),
        Answer::Gives(object) => visit_object(state, variable, object, body, here, labels),
    }
}

/// A `for-in` visits what an object has.
fn visit_object<'p>(
    state: &mut State<'p>,
    variable: &'p Text,
    object: ObjId,
    body: &'p List<Stmt>,
    here: Here,
    labels: Labels<'p>,
) -> Result<Act<'p>, NoMemory>
    ensures refines { Executes state.old (visit_next variable.now (plain_forest (view_statements body.now))
        (context_of state.old.calls here) (labels_seen labels.entry) 0 (visits_of state.old.store.heap object.0))
        result state.new }
    ensures bounded { RankAtMost state.old 3 result state.new }
{
    let alloc = state.alloc();
    let visits = visits_of(alloc, &state.store, object)?;
    let visits = Boxed::of(alloc, Visits { visits, from: 0 })?;
    let kind = Loop::ForIn {
        variable,
        visits,
        body,
    };
    let turn = Boxed::of(alloc, LoopTurn { kind, here, labels })?;
    visit_next(state, turn)
}
