ghost use Rattle.std.specs.Prelude.{◌≡◌};
ghost use Rattle.jl_store.specs.Answers.{ends_with, finish_of};

use jl_value::Value;

/// What an algorithm comes to that may throw.
#[derive(Drop)]
pub enum Answer<T> {
    Gives(T),
    Throws(Value),
}

/// What an algorithm comes to that may throw, or end the run by a fault.
#[derive(Drop)]
pub enum Finished<T> {
    Gives(T),
    Throws(Value),
    Fails(AlgorithmFault),
}

/// What ends a run inside an algorithm that calls no function.
#[derive(Clone, Copy, PartialEq, Eq, Debug)]
pub enum AlgorithmFault {
    /// A number that no script of this language has.
    NumberOutside,
    /// A string would have more units than a string of a run may have.
    StringTooLong,
}

/// The same answer, where none ends the run.
pub(crate) fn finish<T>(answer: Answer<T>) -> Finished<T>
    ensures { finish_of result ≡ ends_with answer }
{
    match answer {
        Answer::Gives(value) => Finished::Gives(value),
        Answer::Throws(thrown) => Finished::Throws(thrown),
    }
}
