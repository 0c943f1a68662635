#![tactic(auto, using(jl_ast::proofs::Views::nodes, crate::proofs::Firsts::lists))]

ghost use Rattle.std.specs.Prelude.{◌≡◌, [], ◌++◌, ◌&&◌, OnOk, map, option_map};
ghost use Rattle.jl_ast.specs.View.{view_ident};
ghost use Rattle.jl_scope.specs.Kinds.{first_from};
ghost use Rattle.jl_scope.specs.Names.{among, with_name};
ghost use Rattle.jl_scope.specs.inner.Steps.{scope_of};
ghost use Rattle.jl_scope.specs.NameSets.{SameNames};
ghost use Rattle.jl_scope.specs.EarlyErrors.{head_early_errors, parameter_early_errors, broken_if};
ghost use Rattle.jl_scope.specs.EarlyErrors.{written_early_errors};

use crate::found::Found;
use crate::name_set::NameSet;
use crate::rules::EarlyRule;
use crate::scope::Scope;
use jl_ast::Ident;
use jl_text::NoMemory;

/// What is wrong with the name and the parameters of a function, in the scope of its body.
pub(crate) fn offer_head(
    name: &Option<Ident>,
    params: &[Ident],
    s: &Scope<'_>,
    found: &mut Found<'_>,
) -> Result<(), NoMemory>
    ensures { OnOk result (found.new ≡ first_from found.old (head_early_errors (scope_of s.now)
        (option_map view_ident name.now) (map view_ident params.now))) }
{
    if let Some(name) = name {
        found.written_name(&name.text, name.span, s);
    }
    offer_parameters(params, s, found)
}

fn offer_parameters(params: &[Ident], s: &Scope<'_>, found: &mut Found<'_>) -> Result<(), NoMemory>
    ensures { OnOk result (found.new
        ≡ first_from found.old (parameter_early_errors (scope_of s.now) [] (map view_ident params.now))) }
{
    let mut before = NameSet::new(s.alloc);
    for p in params {
        offer_parameter(p, &mut before, s, found)?;
    }
    Ok(())
}

fn offer_parameter<'a>(
    p: &'a Ident,
    before: &mut NameSet<'a>,
    s: &Scope<'_>,
    found: &mut Found<'_>,
) -> Result<(), NoMemory>
    ensures before { OnOk result (SameNames before.new (with_name before.old p.now.text)) }
    ensures found { OnOk result (found.new ≡ first_from found.old
        (broken_if (s.now.strict && among p.now.text before.old) EarlyRule.StrictParam p.now.span
        ++ written_early_errors (scope_of s.now) p.now.text p.now.span)) }
{
    let is_new = before.insert(p.text.units())?;
    found.offer_if(s.strict && !is_new, EarlyRule::StrictParam, p.span);
    found.written_name(&p.text, p.span, s);
    Ok(())
}
