//! Objects made.
ghost use Rattle.std.specs.Prelude.{◌≡◌, ◌∷◌, ◌++◌, [], false, length, IfOk, IsTrue, OnErr, OnOk};
ghost use Rattle.jl_heap.specs.Define.{length_name};

use crate::array::{LENGTH, first_length};
use crate::header::Header;
use crate::heap::Heap;
use crate::inner::Inner;
use jl_text::{NoMemory, Text, TextFault};
use jl_value::{Class, ObjId};
use std::alloc::Global;

/// The name `length`.
fn length_text(alloc: Global) -> Result<Text, NoMemory>
    ensures { IfOk result (λ t. t ≡ length_name) }
{
    match Text::from_units(alloc, LENGTH.as_slice()) {
        Ok(name) => Ok(name),
        Err(TextFault::NoMemory) => Err(NoMemory),
        Err(TextFault::TooLong) => Err(NoMemory),
    }
}

impl Heap {
    ghost use Rattle.jl_heap.specs.Inside.{is_older};
    ghost use Rattle.jl_heap.specs.View.{object_of};
    ghost use Rattle.jl_heap.specs.Define.{is_array, with_new_property};
    ghost use Rattle.jl_heap.specs.NewObject.{first_length, proto_there, with_new_object};

    /// Makes an object and answers its place, which is the number of objects before. It is extensible. A prototype that
    /// isn't there counts as none. An array is made with the property `length`, which is 0 and writable; any other
    /// object is made without properties. Where no memory is left, all is as before.
    pub fn new_object(
        &mut self,
        class: Class,
        proto: Option<ObjId>,
        inner: Inner,
    ) -> Result<ObjId, NoMemory>
        ensures place { IfOk result (λ id. id.0 ≡ length self.old.objects) }
        ensures made { OnOk result (self.new ≡ with_new_object self.old class proto inner) }
        ensures err { OnErr result (self.new ≡ self.old) }
    {
        let id = ObjId(self.len());
        let header = Header {
            class,
            proto: self.proto_there(proto),
            extensible: true,
            inner,
        };
        match class {
            Class::Array => self.push_array(header)?,
            _ => self.push_plain(header)?,
        }
        Ok(id)
    }

    /// How many objects there are.
    pub(crate) fn len(&self) -> usize
        ensures { result ≡ length self.now.objects }
    {
        self.headers.len()
    }

    /// The prototype, if an object is there.
    fn proto_there(&self, proto: Option<ObjId>) -> Option<ObjId>
        ensures { result ≡ proto_there self.now proto }
    {
        match proto {
            Some(proto) if proto.0 < self.len() => Some(proto),
            _ => None,
        }
    }

    /// Adds an object that is no array, without properties.
    fn push_plain(&mut self, header: Header) -> Result<(), NoMemory>
        requires older { IsTrue (is_older (length self.old.objects) header.proto) }
        requires no_array { is_array header.class ≡ false }
        ensures ok { OnOk result (self.new
            ≡ record self.old { objects = self.old.objects ++ object_of header [] ∷ [] }) }
        ensures err { OnErr result (self.new ≡ self.old) }
    {
        self.headers.push(header)
    }

    /// Adds an array with its property `length`.
    fn push_array(&mut self, header: Header) -> Result<(), NoMemory>
        requires older { IsTrue (is_older (length self.old.objects) header.proto) }
        ensures ok { OnOk result (self.new
            ≡ with_new_property (record self.old { objects = self.old.objects ++ object_of header [] ∷ [] })
            (length self.old.objects) length_name first_length) }
        ensures err { OnErr result (self.new ≡ self.old) }
    {
        let name = length_text(self.alloc)?;
        let spare = name.share(self.alloc)?;
        let place = self.headers.len();
        self.headers.push(header)?;
        match self.properties.put_new(place, name, first_length()) {
            Ok(()) => {
                self.length_name = Some(spare);
                Ok(())
            }
            Err(error) => {
                let _ = self.headers.pop();
                Err(error)
            }
        }
    }
}
