//! Properties defined (8.12.9, 10.6, 15.4.5.1).
ghost use Rattle.std.specs.Prelude.{◌≡◌, false, IfOk, OnOk, Some};
ghost use Rattle.std.specs.Option.{option_copied, option_map};
ghost use Rattle.jl_effects.specs.Running.{Ends};
ghost use Rattle.jl_heap.specs.Define.{FitsLength, IsOneKind, is_length};
ghost use Rattle.jl_heap.specs.Property.{is_accessor};
ghost use Rattle.jl_meaning.specs.Defining.{define_own_property, define_with_number, end_mapping, makes_read_only};
ghost use Rattle.jl_meaning.specs.Defining.{set_parameter};
ghost use Rattle.jl_meaning.specs.Defining.{update_mapping_if};
ghost use Rattle.jl_meaning.specs.Parts.{gives};
ghost use Rattle.jl_meaning.specs.Properties.{mapped_parameter};
ghost use Rattle.jl_store.specs.Answers.{finish_of};
ghost use Rattle.jl_store.specs.BigStep.{BigStep};
ghost use Rattle.jl_store.specs.Defining.{end_mapping_where, IsLengthOf, length_given, LengthIsPrimitive};
ghost use Rattle.jl_store.specs.Defining.{remap_parameter, remapped_if, remapping_of};
ghost use Rattle.jl_value.specs.Indices.{index_of};
ghost use Rattle.jl_value.specs.Tests.{is_object};

use crate::answer::{AlgorithmFault, Finished};
use crate::store::Store;
use jl_conv::primitive_to_num;
use jl_heap::{Change, Defined, is_length_name};
use jl_num::Num;
use jl_text::{NoMemory, Text, word};
use jl_value::{Class, ErrorKind, ObjId, Value, array_index, share_optional};

/// What becomes of the parameter that an index is mapped to when the index is defined (10.6).
#[derive(Drop)]
struct Remapping {
    env: usize,
    parameter: Text,
    accessor: bool,
    value: Option<Value>,
    read_only: bool,
}

impl Store {
    /// An index, if the name is one, is mapped to no parameter from now on (10.6). It takes no memory.
    pub fn end_mapping(&mut self, id: ObjId, name: &Text)
        ensures { BigStep (end_mapping id (index_of name.now)) self.old self.new (Ends (gives tt)) }
    {
        if let Some(index) = array_index(name.units()) {
            self.unmap_index(id, index);
        }
    }

    fn end_mapping_where(&mut self, ends: bool, id: ObjId, name: &Text)
        ensures { BigStep (end_mapping_where ends id name.now) self.old self.new (Ends (gives tt)) }
    {
        if ends {
            self.end_mapping(id, name);
        }
    }

    fn set_parameter(&mut self, env: usize, parameter: &Text, value: Option<Value>)
        ensures { BigStep (set_parameter (env, parameter.now) value) self.old self.new (Ends (gives tt)) }
    {
        if let Some(value) = value {
            self.set_binding(env, parameter, value);
        }
    }

    fn remap(&mut self, id: ObjId, name: &Text, remapping: Remapping)
        ensures { BigStep (remap_parameter id name.now remapping.accessor remapping.value remapping.read_only
            (remapping.env, remapping.parameter)) self.old self.new (Ends (gives tt)) }
    {
        let Remapping {
            env,
            parameter,
            accessor,
            value,
            read_only,
        } = remapping;
        if accessor {
            self.end_mapping(id, name);
            return;
        }
        self.set_parameter(env, &parameter, value);
        self.end_mapping_where(read_only, id, name);
    }

    /// What becomes of the parameter that an index is mapped to where this change is done, if it is mapped to one.
    fn remapping(
        &self,
        id: ObjId,
        name: &Text,
        change: &Change,
    ) -> Result<Option<Remapping>, NoMemory>
        ensures { IfOk result (λ r.
            option_map (remapping_of change.now) (mapped_parameter self.now id.0 name.now) ≡ r) }
    {
        let Some((env, parameter)) = self.mapped_parameter(id, name) else {
            return Ok(None);
        };
        Ok(Some(Remapping {
            env,
            parameter: parameter.share(self.alloc)?,
            accessor: is_accessor(change),
            value: share_optional(self.alloc, &change.value)?,
            read_only: makes_read_only(change),
        }))
    }

    /// [[DefineOwnProperty]] of a change in which a length of an array is a number already: whether it is done
    /// (8.12.9, 10.6, 15.4.5.1).
    pub fn define_with_number(
        &mut self,
        id: ObjId,
        name: &Text,
        change: Change,
    ) -> Result<bool, NoMemory>
        requires one_kind { IsOneKind change }
        requires length { FitsLength self.old.heap id.0 name.now change }
        ensures { IfOk result (λ done. BigStep (define_with_number id name.now change) self.old self.new
            (Ends (gives done))) }
    {
        let remapping = self.remapping(id, name, &change)?;
        match self.define_property(id, name, change)? {
            Defined::Rejected => Ok(false),
            Defined::Done => {
                self.remap_if(id, name, remapping);
                Ok(true)
            }
        }
    }

    /// [[DefineOwnProperty]] (8.12.9, 10.6, 15.4.5.1), where no function is called: a value that is given for the
    /// length of an array is no object. Such a value is converted to a number: that ends the run where no number is
    /// the result, and throws where the number is no length.
    #[tactic(auto, unfolding(jl_meaning::specs::Defining::define_own_property))]
    pub fn define_own_property(
        &mut self,
        id: ObjId,
        name: &Text,
        change: Change,
    ) -> Result<Finished<bool>, NoMemory>
        requires one_kind { IsOneKind change }
        requires primitive { LengthIsPrimitive self.old.heap id.0 name.now change }
        ensures { IfOk result (λ end.
            BigStep (define_own_property id name.now change) self.old self.new (finish_of end)) }
    {
        let Some(value) = self.length_given(id, name, &change) else {
            return Ok(Finished::Gives(self.define_with_number(id, name, change)?));
        };
        match self.to_length(value)? {
            Finished::Gives(number) => {
                let change = Change {
                    value: Some(Value::Num(number)),
                    ..change
                };
                Ok(Finished::Gives(self.define_with_number(id, name, change)?))
            }
            Finished::Throws(thrown) => Ok(Finished::Throws(thrown)),
            Finished::Fails(fault) => Ok(Finished::Fails(fault)),
        }
    }

    /// The value that a change gives for the length of an array, if it gives one.
    fn length_given<'a>(&self, id: ObjId, name: &Text, change: &'a Change) -> Option<&'a Value>
        ensures { option_copied result ≡ length_given self.now.heap id.0 name.now change.now }
    {
        if self.class_of(id) != Class::Array || !is_length_name(name) {
            return None;
        }
        change.value.as_ref()
    }

    /// A value as a length (15.4.5.1, steps 3.c and 3.d). It throws where the number is none, and ends the run
    /// where the value has none.
    fn to_length(&mut self, value: &Value) -> Result<Finished<Num>, NoMemory>
        requires { is_object value.now ≡ false }
        ensures { IfOk result (λ end. IsLengthOf value.now self.old self.new end) }
    {
        let Ok(number) = primitive_to_num(value) else {
            return Ok(Finished::Fails(AlgorithmFault::NumberOutside));
        };
        if is_length(number) {
            return Ok(Finished::Gives(number));
        }
        let message = word(self.alloc, "bad array length")?;
        let thrown = self.throw_error(ErrorKind::RangeError, message)?;
        Ok(Finished::Throws(thrown))
    }

    fn remap_if(&mut self, id: ObjId, name: &Text, remapping: Option<Remapping>)
        ensures { BigStep (remapped_if id name.now remapping) self.old self.new (Ends (gives tt)) }
    {
        if let Some(remapping) = remapping {
            self.remap(id, name, remapping);
        }
    }
}

/// Whether a getter or a setter is asked for (8.10.1).
fn is_accessor(change: &Change) -> bool
    ensures { result ≡ is_accessor change.now }
{
    change.get.is_some() || change.set.is_some()
}

/// Whether a change makes a property read-only.
fn makes_read_only(change: &Change) -> bool
    ensures { result ≡ makes_read_only change.now }
{
    match change.writable {
        Some(writable) => !writable,
        None => false,
    }
}

/// Whether a number may be the length of an array (15.4.5.1, step 3.d): it is a whole number from 0 to 2^32 - 1.
fn is_length(number: Num) -> bool
    ensures { result ≡ is_length (Value.Num number) }
{
    match number.value() {
        Some(n) => 0 <= n && n < 4_294_967_296,
        None => false,
    }
}
