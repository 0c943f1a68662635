// What is known by its name, in a table of all.
ghost use Rattle.std.specs.Prelude.{◌≡◌, true, ℕ, List, MatchOption, Some, slice_get};
ghost use Rattle.jl_ast.specs.declared.ops.BinOp.{BinOp};
ghost use Rattle.jl_op.specs.Kinds.{kind_name};
ghost use Rattle.jl_op.specs.Trace.{binary_sign, unary_sign};
ghost use Rattle.jl_op.specs.declared.found.Found.{Found};
ghost use Rattle.jl_op.specs.declared.kind.OpKind.{OpKind};
ghost use Rattle.jl_op.specs.declared.sign.UnKind.{UnKind};
ghost use Rattle.jl_value.specs.Builtins.{name_of};
ghost use Rattle.jl_value.specs.Texts.{class_name};
ghost use Rattle.jl_value.specs.declared.builtin.Builtin.{Builtin};
ghost use Rattle.jl_value.specs.declared.object.Class.{Class};
ghost use Rattle.jl_record.specs.Facts.{found_mark};
ghost use Rattle.jl_record.specs.Plain.{is_plain};

use jl_ast::BinOp;
use jl_op::{Found, OpKind, UnKind, binary_sign};
use jl_text::is_spelled;
use jl_value::{Builtin, Class};

/// What has a name of ASCII characters.
pub(crate) trait Named: Copy {
    /// Its name.
    ghost name: { Self → List ℕ };

    /// Its name.
    fn spelling(self) -> &'static str
        ensures value { result.now ≡ name self }
        ensures plain { is_plain (name self) ≡ true };
}

/// The first of a table with this name.
pub(crate) fn among<T: Named>(table: &[T], name: &[u16]) -> Option<T>
    ensures { MatchOption result ((at : ℕ) (it : T) → slice_get table.now at ≡ Some it → name.now ≡ T.name it → ⊥)
        (λ it. name.now ≡ T.name it) }
{
    for it in table {
        if is_spelled(name, it.spelling().as_bytes()) {
            return Some(*it);
        }
    }
    None
}

impl Named for OpKind {
    ghost name = { kind_name };

    #[tactic(auto, using(crate::proofs::PlainNames::kind_is_plain))]
    fn spelling(self) -> &'static str {
        self.name()
    }
}

impl Named for Class {
    ghost name = { class_name };

    #[tactic(auto, using(crate::proofs::PlainNames::class_is_plain))]
    fn spelling(self) -> &'static str {
        self.name()
    }
}

impl Named for Found {
    ghost name = { found_mark };

    fn spelling(self) -> &'static str {
        match self {
            Found::Absent => "absent",
            Found::OwnPlain => "own-plain",
            Found::OwnAccessor => "own-accessor",
            Found::ChainPlain => "chain-plain",
            Found::ChainAccessor => "chain-accessor",
        }
    }
}

impl Named for BinOp {
    ghost name = { binary_sign };

    #[tactic(auto, using(crate::proofs::PlainNames::binary_is_plain))]
    fn spelling(self) -> &'static str {
        binary_sign(self)
    }
}

impl Named for UnKind {
    ghost name = { unary_sign };

    #[tactic(auto, using(crate::proofs::PlainNames::unary_is_plain))]
    fn spelling(self) -> &'static str {
        self.sign()
    }
}

impl Named for Builtin {
    ghost name = { name_of };

    #[tactic(auto, using(crate::proofs::PlainNames::builtin_is_plain))]
    fn spelling(self) -> &'static str {
        self.name()
    }
}

/// The builtin with this name.
pub(crate) fn builtin_named(name: &[u16]) -> Option<Builtin>
    ensures { MatchOption result ((b : Builtin) → name.now ≡ name_of b → ⊥) (λ b. name.now ≡ name_of b) }
{
    among(Builtin::all(), name)
}
