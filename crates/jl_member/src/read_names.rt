//! Names read, typed and deleted (11.1.2, 11.4.1, 11.4.3).
ghost use Rattle.jl_meaning.specs.forms.Names.{delete_identifier, read_name, typeof_name};
ghost use Rattle.jl_state.specs.Clauses.{Evaluates, RankAtMost};
ghost use Rattle.jl_state.specs.Rest.{RefinesExpression};
ghost use Rattle.jl_state.specs.Words.{context_of};

use jl_algorithm::{delete_name as delete_reference, get_name, is_hooks, type_of_name};
use jl_state::{Act, Here, State};
use jl_store::Answer;
use jl_text::{NoMemory, Text};
use jl_value::{Completion, Fault, Value};

/// The value of a name (11.1.2).
pub fn read_name<'p>(state: &mut State<'p>, name: &'p Text, here: Here) -> Result<Act<'p>, NoMemory>
    ensures refines { Evaluates state.old (read_name 0 (context_of state.old.calls here) name.now) result state.new }
    ensures bounded { RankAtMost state.old 60 result state.new }
{
    if is_hooks(name) {
        return Ok(Act::Fault(Fault::Misuse));
    }
    get_name(state, here.env, name)
}

/// `typeof` of a name (11.4.3).
pub fn typeof_name<'p>(
    state: &mut State<'p>,
    name: &'p Text,
    here: Here,
) -> Result<Act<'p>, NoMemory>
    ensures refines { Evaluates state.old (typeof_name 0 (context_of state.old.calls here) name.now) result state.new }
    ensures bounded { RankAtMost state.old 60 result state.new }
{
    if is_hooks(name) {
        return Ok(Act::Fault(Fault::Misuse));
    }
    type_of_name(state, here.env, name)
}

/// `delete` of a name (11.4.1).
pub fn delete_name<'p>(
    state: &mut State<'p>,
    name: &'p Text,
    here: Here,
) -> Result<Act<'p>, NoMemory>
    ensures refines { Evaluates state.old (delete_identifier (context_of state.old.calls here) name.now) result
        state.new }
    ensures bounded { RankAtMost state.old 60 result state.new }
{
    if is_hooks(name) {
        return Ok(Act::Fault(Fault::Misuse));
    }
    match delete_reference(state, here.strict, here.env, name)? {
        Answer::Gives(free) => Ok(Act::Give(Value::Bool(free))),
        Answer::Throws(thrown) => Ok(Act::Complete(Completion::Throw(thrown))),
    }
}
