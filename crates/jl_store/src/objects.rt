//! Objects made, and values as objects (9.9, 11.1.4, 11.1.5, 15.5.2.1).
ghost use Rattle.std.specs.Prelude.{IfOk};
ghost use Rattle.jl_effects.specs.Running.{Ends};
ghost use Rattle.jl_meaning.specs.Conversions.{new_string_object, new_wrapper, to_object};
ghost use Rattle.jl_meaning.specs.Parts.{gives};
ghost use Rattle.jl_meaning.specs.forms.Literals.{new_array, new_plain_object};
ghost use Rattle.jl_store.specs.Answers.{ends_with};
ghost use Rattle.jl_store.specs.BigStep.{BigStep};

use crate::answer::Answer;
use crate::functions::data;
use crate::store::Store;
use crate::words::count;
use jl_heap::Inner;
use jl_text::{NoMemory, Text, word};
use jl_value::{Class, ObjId, Value};

impl Store {
    /// Makes an array without elements (11.1.4).
    pub fn new_array(&mut self) -> Result<ObjId, NoMemory>
        ensures { IfOk result (λ id. BigStep new_array self.old self.new (Ends (gives id))) }
    {
        let id = self.new_object(Class::Array, Some(ObjId::ARRAY_PROTOTYPE), Inner::Nothing)?;
        Ok(id)
    }

    /// Makes an object without properties (11.1.5).
    pub fn new_plain_object(&mut self) -> Result<ObjId, NoMemory>
        ensures { IfOk result (λ id. BigStep new_plain_object self.old self.new (Ends (gives id))) }
    {
        let id = self.new_object(Class::Object, Some(ObjId::OBJECT_PROTOTYPE), Inner::Nothing)?;
        Ok(id)
    }

    /// Makes an object that stands for a primitive value (15.6.2.1, 15.7.2.1).
    pub fn new_wrapper(
        &mut self,
        class: Class,
        proto: ObjId,
        value: Value,
    ) -> Result<ObjId, NoMemory>
        ensures { IfOk result (λ id. BigStep (new_wrapper class proto value) self.old self.new (Ends (gives id))) }
    {
        let id = self.new_object(class, Some(proto), Inner::Wrapped(value))?;
        Ok(id)
    }

    /// Makes a String object, which has the length of its text (15.5.2.1, 15.5.5.1).
    #[tactic(auto, unfolding(jl_heap::specs::Define::length_name))]
    pub fn new_string_object(&mut self, text: Text) -> Result<ObjId, NoMemory>
        ensures { IfOk result (λ id. BigStep (new_string_object text) self.old self.new (Ends (gives id))) }
    {
        let length = word(self.alloc, "length")?;
        let units = count(text.units().len())?;
        let wrapped = Inner::Wrapped(Value::Text(text));
        let id = self.new_object(Class::String, Some(ObjId::STRING_PROTOTYPE), wrapped)?;
        self.add_property(id, &length, data(units, false, false, false))?;
        Ok(id)
    }

    /// ToObject (9.9). It throws where the value is undefined or null.
    #[tactic(auto, unfolding(jl_meaning::specs::Conversions::to_object), using(crate::proofs::Chains::error_comes))]
    pub fn to_object(&mut self, value: &Value) -> Result<Answer<ObjId>, NoMemory>
        ensures { IfOk result (λ answer. BigStep (to_object value.now) self.old self.new (ends_with answer)) }
    {
        match value {
            Value::Undefined => {
                let thrown = self.throw_type_error("no property of undefined")?;
                Ok(Answer::Throws(thrown))
            }
            Value::Null => {
                let thrown = self.throw_type_error("no property of null")?;
                Ok(Answer::Throws(thrown))
            }
            Value::Bool(truth) => {
                let truth = Value::Bool(*truth);
                let id = self.new_wrapper(Class::Boolean, ObjId::BOOLEAN_PROTOTYPE, truth)?;
                Ok(Answer::Gives(id))
            }
            Value::Num(number) => {
                let number = Value::Num(*number);
                let id = self.new_wrapper(Class::Number, ObjId::NUMBER_PROTOTYPE, number)?;
                Ok(Answer::Gives(id))
            }
            Value::Text(text) => {
                let text = text.share(self.alloc)?;
                let id = self.new_string_object(text)?;
                Ok(Answer::Gives(id))
            }
            Value::Obj(id) => Ok(Answer::Gives(*id)),
        }
    }
}
