ghost use Rattle.std.specs.Prelude.{◌≡◌};
ghost use Rattle.jl_op.specs.KindSets.{is_member};
ghost use Rattle.jl_op.specs.declared.kind.OpKind.{OpKind as Kind};
ghost use Rattle.jl_profile.specs.Births.{is_profiled};

use jl_op::{KindSet, OpKind};

/// The kinds of operations that the profile looks at.
pub fn profiled_kinds() -> KindSet
    ensures { (kind : Kind) → is_member result kind ≡ is_profiled kind }
{
    KindSet::none()
        .with(OpKind::ArrayLiteral)
        .with(OpKind::ObjectLiteral)
        .with(OpKind::FunctionLiteral)
        .with(OpKind::GetField)
        .with(OpKind::PutField)
        .with(OpKind::DeleteField)
        .with(OpKind::InvokePre)
        .with(OpKind::InvokePost)
        .with(OpKind::ForIn)
}
