ghost use Rattle.std.specs.Prelude.{◌≡◌, ◌<◌, ◌≢◌, IfNone, IfSome, Some, is_some, length, slice_get};
ghost use Rattle.jl_value.specs.Builtins.{builtins, entry_of, name_of};
ghost use Rattle.jl_value.specs.BuiltinPlaces.{bound, place_of_builtin, place_of_row, row_of};

use crate::builtin_groups::{
    ArrayBuiltin, BooleanBuiltin, ErrorBuiltin, FunctionBuiltin, GlobalBuiltin,
    LeftOutStringMethod, MathBuiltin, NumberBuiltin, ObjectBuiltin, StringBuiltin, StringMethod,
};
use crate::builtin_table::BUILTINS;
use crate::object::ObjId;

/// A function that a script finds when it begins (clause 15).
#[derive(Clone, Copy, PartialEq, Eq, Debug)]
pub enum Builtin {
    Object(ObjectBuiltin),
    Function(FunctionBuiltin),
    Array(ArrayBuiltin),
    String(StringBuiltin),
    StringMethod(StringMethod),
    LeftOutStringMethod(LeftOutStringMethod),
    Global(GlobalBuiltin),
    Number(NumberBuiltin),
    Boolean(BooleanBuiltin),
    Error(ErrorBuiltin),
    Math(MathBuiltin),
}

/// The object of which a builtin is a property when a run begins.
#[derive(Clone, Copy, PartialEq, Eq, Debug)]
pub enum Holder {
    /// None has it by the last part of its path.
    Nothing,
    /// One of the first objects.
    Object(ObjId),
    /// A constructor.
    Builtin(Builtin),
}

const FUNCTION: u16 = ObjectBuiltin::PropertyIsEnumerable as u16 + 1;

const ARRAY: u16 = FUNCTION + FunctionBuiltin::Thrower as u16 + 1;

const STRING: u16 = ARRAY + ArrayBuiltin::ReduceRight as u16 + 1;

const STRING_METHOD: u16 = STRING + StringBuiltin::ValueOf as u16 + 1;

const LEFT_OUT_STRING_METHOD: u16 = STRING_METHOD + StringMethod::Trim as u16 + 1;

const GLOBAL: u16 = LEFT_OUT_STRING_METHOD + LeftOutStringMethod::Search as u16 + 1;

const NUMBER: u16 = GLOBAL + GlobalBuiltin::IsFinite as u16 + 1;

const BOOLEAN: u16 = NUMBER + NumberBuiltin::ToLocaleString as u16 + 1;

const ERROR: u16 = BOOLEAN + BooleanBuiltin::ValueOf as u16 + 1;

const MATH: u16 = ERROR + ErrorBuiltin::ToString as u16 + 1;

impl Builtin {
    /// `Function.prototype`, which is a function (15.3.4).
    pub const FUNCTION_PROTOTYPE: Builtin = Builtin::Function(FunctionBuiltin::Prototype);

    /// Any function that `bind` made (15.3.4.5).
    pub const BOUND: Builtin = Builtin::Function(FunctionBuiltin::Bound);

    /// All builtins, in the order of their rows.
    #[tactic(auto, unfolding(crate::specs::Builtins::builtins))]
    pub fn all() -> &'static [Builtin]
        ensures { result.now ≡ builtins }
    {
        &BUILTINS
    }

    /// The builtin with this row, where the table has one.
    pub fn at(row: u16) -> Option<Builtin>
        ensures { result ≡ slice_get builtins row }
    {
        Builtin::all().get(usize::from(row)).copied()
    }

    /// The builtin with this path, where the table has one. Compares the path with each of the table in turn.
    pub fn named(name: &str) -> Option<Builtin>
        ensures found { IfSome result (λ b. name_of b ≡ name.now) }
        ensures none { IfNone result ((b : Builtin) → name_of b ≢ name.now) }
    {
        for builtin in Builtin::all() {
            if builtin.name() == name {
                return Some(*builtin);
            }
        }
        None
    }

    /// Its row in the table, from 0.
    #[tactic(auto, using(crate::proofs::Rows::rows))]
    pub fn row(self) -> u16
        ensures same { result ≡ row_of self }
        ensures there { slice_get builtins result ≡ Some self }
    {
        match self {
            Builtin::Object(builtin) => builtin as u16,
            Builtin::Function(builtin) => FUNCTION + builtin as u16,
            Builtin::Array(builtin) => ARRAY + builtin as u16,
            Builtin::String(builtin) => STRING + builtin as u16,
            Builtin::StringMethod(builtin) => STRING_METHOD + builtin as u16,
            Builtin::LeftOutStringMethod(builtin) => LEFT_OUT_STRING_METHOD + builtin as u16,
            Builtin::Global(builtin) => GLOBAL + builtin as u16,
            Builtin::Number(builtin) => NUMBER + builtin as u16,
            Builtin::Boolean(builtin) => BOOLEAN + builtin as u16,
            Builtin::Error(builtin) => ERROR + builtin as u16,
            Builtin::Math(builtin) => MATH + builtin as u16,
        }
    }

    /// Its path, as `Array.prototype.push`.
    pub fn name(self) -> &'static str
        ensures { result.now ≡ name_of self }
    {
        self.entry().path
    }

    /// How many arguments its `length` says that it takes (clause 15).
    pub fn length(self) -> u8
        ensures { result ≡ (entry_of self).length }
    {
        self.entry().length
    }

    /// The object of which it is a property when a run begins.
    pub fn holder(self) -> Holder
        ensures { result ≡ (entry_of self).holder }
    {
        self.entry().holder
    }

    /// The prototype of what it constructs, if it is a constructor.
    pub fn prototype(self) -> Option<ObjId>
        ensures { result ≡ (entry_of self).prototype }
    {
        self.entry().prototype
    }

    /// The object that it is when a run begins.
    pub fn place(self) -> ObjId
        requires { self ≢ bound }
        ensures { result ≡ place_of_builtin self }
    {
        match self {
            Builtin::Function(FunctionBuiltin::Prototype) => ObjId::FUNCTION_PROTOTYPE,
            _ => place_of_row(self.row()),
        }
    }
}

/// The object in this row, where that is a function of its own: the first objects come before it, and two rows have no
/// such function.
#[tactic(auto, unfolding(crate::specs::BuiltinPlaces::place_of_row))]
fn place_of_row(row: u16) -> ObjId
    requires { row < length builtins }
    ensures { result ≡ place_of_row row }
{
    let before = usize::from(row) + ObjId::INTRINSICS;
    if Builtin::BOUND.row() < row {
        ObjId(before - 2)
    } else if Builtin::FUNCTION_PROTOTYPE.row() < row {
        ObjId(before - 1)
    } else {
        ObjId(before)
    }
}
