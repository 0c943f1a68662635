ghost use Rattle.std.specs.Prelude.{◌≡◌};
ghost use Rattle.jl_op.specs.KindSets.{is_member};
ghost use Rattle.jl_op.specs.declared.kind.OpKind.{OpKind as Kind};
ghost use Rattle.jl_cover.specs.Coverage.{is_covered};

use jl_op::{KindSet, OpKind};

/// The kinds of operations that coverage looks at.
pub fn covered_kinds() -> KindSet
    ensures { (kind : Kind) → is_member result kind ≡ is_covered kind }
{
    KindSet::none()
        .with(OpKind::FunctionEnter)
        .with(OpKind::Conditional)
}
