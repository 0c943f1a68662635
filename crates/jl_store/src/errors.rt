//! The errors that the language throws by itself (15.11).
ghost use Rattle.std.specs.Prelude.{◌≡◌, IfOk};
ghost use Rattle.jl_meaning.specs.Intrinsics.{prototype_of_error};
ghost use Rattle.jl_store.specs.Answers.{ends_with, IsNotDefined, MakesError};
ghost use Rattle.jl_store.specs.BigStep.{BigStep};
ghost use Rattle.jl_meaning.specs.Errors.{require};

use crate::answer::Answer;
use crate::store::Store;
use jl_heap::{Inner, Prop};
use jl_text::{NoMemory, Text, TextFault, word};
use jl_value::{Class, ErrorKind, ObjId, Value};

/// The prototype of a kind of errors (15.11.7.7).
fn prototype_of_error(kind: ErrorKind) -> ObjId
    ensures { result ≡ prototype_of_error kind }
{
    match kind {
        ErrorKind::RangeError => ObjId::RANGE_ERROR_PROTOTYPE,
        ErrorKind::ReferenceError => ObjId::REFERENCE_ERROR_PROTOTYPE,
        ErrorKind::TypeError => ObjId::TYPE_ERROR_PROTOTYPE,
    }
}

impl Store {
    /// Makes a new error with its message, which is to be thrown (15.11.1.1, 15.11.7.4).
    pub fn throw_error(&mut self, kind: ErrorKind, message: Text) -> Result<Value, NoMemory>
        ensures { IfOk result (λ thrown. MakesError kind message self.old self.new thrown) }
    {
        let name = word(self.alloc, "message")?;
        let error = self.new_object(Class::Error, Some(prototype_of_error(kind)), Inner::Nothing)?;
        self.add_property(
            error,
            &name,
            Prop::Plain {
                value: Value::Text(message),
                writable: true,
                enumerable: false,
                configurable: true,
            },
        )?;
        Ok(Value::Obj(error))
    }

    /// The same of a TypeError.
    pub fn throw_type_error(&mut self, message: &str) -> Result<Value, NoMemory>
        ensures { IfOk result (λ thrown. MakesError ErrorKind.TypeError message.now self.old self.new thrown) }
    {
        let message = word(self.alloc, message)?;
        let thrown = self.throw_error(ErrorKind::TypeError, message)?;
        Ok(thrown)
    }

    /// Throws a TypeError unless this is so.
    #[tactic(auto, using(crate::proofs::Chains::error_comes))]
    pub fn require(&mut self, holds: bool, message: &str) -> Result<Answer<()>, NoMemory>
        ensures { IfOk result (λ answer. BigStep (require holds message.now) self.old self.new (ends_with answer)) }
    {
        if holds {
            return Ok(Answer::Gives(()));
        }
        let thrown = self.throw_type_error(message)?;
        Ok(Answer::Throws(thrown))
    }

    /// Makes the error that nothing binds a name, to be thrown (8.7.1, 8.7.2), or gives up where its message would
    /// be too long.
    pub fn throw_not_defined(&mut self, name: &Text) -> Result<NotDefined, NoMemory>
        ensures { IfOk result (λ answer. IsNotDefined name.now self.old self.new answer) }
    {
        let rest = word(self.alloc, " is not defined")?;
        match Text::concat(self.alloc, name, &rest) {
            Ok(message) => {
                let thrown = self.throw_error(ErrorKind::ReferenceError, message)?;
                Ok(NotDefined::Throws(thrown))
            }
            Err(TextFault::TooLong) => Ok(NotDefined::TooLong),
            Err(TextFault::NoMemory) => Err(NoMemory),
        }
    }
}

/// What comes of a name that nothing binds.
#[derive(Drop)]
pub enum NotDefined {
    Throws(Value),
    /// The message would have more units than a string of a run may have.
    TooLong,
}
