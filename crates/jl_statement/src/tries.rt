//! The `try` statement (12.14).
ghost use Rattle.std.specs.Prelude.{Some};
ghost use Rattle.jl_ast.specs.View.{view_branch, view_catch};
ghost use Rattle.jl_effects.specs.Effects.{and_then};
ghost use Rattle.jl_meaning.specs.Completions.{ends_as};
ghost use Rattle.jl_meaning.specs.Statements.{execute_branch, handle};
ghost use Rattle.jl_meaning.specs.forms.Try.{unless_abrupt};
ghost use Rattle.jl_state.specs.Clauses.{Executes, RankAtMost, ResumesCompletion};
ghost use Rattle.jl_state.specs.Trees.{plain_optional};
ghost use Rattle.jl_state.specs.Words.{context_of, table_of};

use crate::executing::begin_statements;
use jl_ast::{Ident, Stmt};
use jl_state::{Act, CompletionFrame, Here, State};
use jl_text::{List, NoMemory};
use jl_value::{Completion, Value};

/// The statements after `finally` begin, if there are any, where this was completed before them.
pub(crate) fn begin_finally<'p>(
    state: &mut State<'p>,
    finally: &'p Option<List<Stmt>>,
    before: Completion,
    here: Here,
) -> Result<Act<'p>, NoMemory>
    ensures refines { Executes state.old (ends_as (unless_abrupt before) (execute_branch (table_of
        state.old.functions) (plain_optional (view_branch finally.now)) (context_of state.old.calls here))) result
        state.new }
    ensures bounded { RankAtMost state.old 18 result state.new }
{
    match finally {
        None => Ok(Act::Complete(before)),
        Some(list) => {
            state.push_completion(CompletionFrame::FinallyBlock { before })?;
            begin_statements(state, list, here)
        }
    }
}

/// A `catch` begins with what was thrown (12.14).
fn begin_catch<'p>(
    state: &mut State<'p>,
    handler: &'p (Ident, List<Stmt>),
    finally: &'p Option<List<Stmt>>,
    here: Here,
    thrown: Value,
) -> Result<Act<'p>, NoMemory>
    ensures refines { Executes state.old (and_then (handle (table_of state.old.functions) (plain_optional (view_catch
        (Some handler.now))) (Completion.Throw thrown) (context_of state.old.calls here)) (λ handled. ends_as
        (unless_abrupt handled) (execute_branch (table_of state.old.functions) (plain_optional (view_branch
        finally.now)) (context_of state.old.calls here)))) result state.new }
    ensures bounded { RankAtMost state.old 52 result state.new }
{
    state.push_completion(CompletionFrame::CatchBlock { finally, here })?;
    enter_catch(state, handler, here, thrown)
}

/// The statements of a `catch` begin, where the caught value is bound.
fn enter_catch<'p>(
    state: &mut State<'p>,
    handler: &'p (Ident, List<Stmt>),
    here: Here,
    thrown: Value,
) -> Result<Act<'p>, NoMemory>
    ensures refines { Executes state.old (handle (table_of state.old.functions) (plain_optional (view_catch (Some
        handler.now))) (Completion.Throw thrown) (context_of state.old.calls here)) result state.new }
    ensures bounded { RankAtMost state.old 14 result state.new }
{
    let env = state.store.enter_catch(here.env, &handler.0.text, thrown)?;
    let inside = Here {
        env,
        strict: here.strict,
    };
    begin_statements(state, &handler.1, inside)
}

/// A `try` goes on after its block (12.14).
pub(crate) fn step_try<'p>(
    state: &mut State<'p>,
    catch: &'p Option<(Ident, List<Stmt>)>,
    finally: &'p Option<List<Stmt>>,
    here: Here,
    how: Completion,
) -> Result<Act<'p>, NoMemory>
    ensures refines { ResumesCompletion state.old (CompletionFrame.TryBlock catch.entry finally.entry here) how result
        state.new }
    ensures bounded { RankAtMost state.old 52 result state.new }
{
    match catch {
        None => begin_finally(state, finally, how, here),
        Some(handler) => after_block(state, handler, finally, here, how),
    }
}

/// A `try` that has a `catch` goes on after its block.
fn after_block<'p>(
    state: &mut State<'p>,
    handler: &'p (Ident, List<Stmt>),
    finally: &'p Option<List<Stmt>>,
    here: Here,
    how: Completion,
) -> Result<Act<'p>, NoMemory>
    ensures refines { Executes state.old (and_then (handle (table_of state.old.functions) (plain_optional (view_catch
        (Some handler.now))) how (context_of state.old.calls here)) (λ handled. ends_as (unless_abrupt handled)
        (execute_branch (table_of state.old.functions) (plain_optional (view_branch finally.now)) (context_of
        state.old.calls here)))) result state.new }
    ensures bounded { RankAtMost state.old 52 result state.new }
{
    match how {
        Completion::Throw(thrown) => begin_catch(state, handler, finally, here, thrown),
        Completion::Normal => begin_finally(state, finally, Completion::Normal, here),
        Completion::Return(v) => begin_finally(state, finally, Completion::Return(v), here),
        Completion::Break(x) => begin_finally(state, finally, Completion::Break(x), here),
        Completion::Continue(x) => begin_finally(state, finally, Completion::Continue(x), here),
    }
}
