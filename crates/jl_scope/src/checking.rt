#![tactic(auto, using(jl_ast::proofs::Views::nodes, crate::proofs::Firsts::lists))]

ghost use Rattle.std.specs.Prelude.{◌≡◌, IfOk, option_map};
ghost use Rattle.jl_ast.specs.View.{view};
ghost use Rattle.jl_scope.specs.EarlyError.{first_early_error, Tells};
ghost use Rattle.jl_scope.specs.inner.Steps.{early_error_of};

use crate::found::{Finding, Found};
use crate::refusal::ScopeRefusal;
use crate::scope::{Scope, bound_in_program};
use crate::walk::walk_body;
use jl_ast::Program;
use jl_text::NoMemory;
use std::alloc::Global;

/// Whether nothing is wrong with a program before it runs, and else the first thing that is: an early rule that is
/// broken (clause 16), the first by place and then by the rule's number; else a left-out name that is mentioned and
/// not bound; else `J$` as an identifier or a label. It takes time in proportion to the program on average, but for
/// names of labels and of what is bound round a part, of which there are few, and recurses as deep as the program is
/// high.
pub fn check(alloc: Global, p: &Program) -> Result<(), ScopeRefusal>
    ensures { Tells result (first_early_error (view p.now)) }
{
    match first_finding(alloc, p)? {
        None => Ok(()),
        Some(Finding::Early(rule, span)) => Err(ScopeRefusal::Early { rule, span }),
        Some(Finding::LeftOut(name, span)) => {
            let name = name.share(alloc)?;
            Err(ScopeRefusal::LeftOut { name, span })
        }
        Some(Finding::ReservedName(span)) => Err(ScopeRefusal::ReservedName { span }),
    }
}

fn first_finding<'a>(alloc: Global, p: &'a Program) -> Result<Option<Finding<'a>>, NoMemory>
    ensures { IfOk result (λ finding. option_map early_error_of finding ≡ first_early_error (view p.now)) }
{
    let bound = bound_in_program(alloc, &p.body)?;
    let s = Scope {
        alloc,
        strict: p.body.strict,
        in_function: false,
        in_loop: false,
        can_break: false,
        labels: &[],
        bound: bound.as_slice(),
    };
    let mut found = Found::new();
    walk_body(&p.body, &s, &mut found)?;
    Ok(found.into_first())
}
