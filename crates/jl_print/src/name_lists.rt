//! Names, lists of them, and directives.
#![tactic(auto, using(jl_ast::proofs::Views::nodes), unfolding(crate::specs::CanonicalTokens::tokens_of_node))]

ghost use Rattle.std.specs.Prelude.{◌≡◌, ◌++◌, OnOk, map, option_map};
ghost use Rattle.jl_ast.specs.View.{view_ident};
ghost use Rattle.jl_print.specs.Pieces.{name};
ghost use Rattle.jl_print.specs.CanonicalTokens.{parameters, further_names};
ghost use Rattle.jl_print.specs.CanonicalTokens.{optional_name, directive};
ghost use Rattle.jl_print.specs.inner.Kinds.{comma_unless};

use crate::piece::Pieces;
use jl_ast::Ident;
use jl_text::{List, NoMemory};
use jl_token::Punct;

pub(crate) fn add_comma_unless<'a>(first: bool, out: &mut Pieces<'a>) -> Result<(), NoMemory>
    ensures { OnOk result (out.new ≡ out.old ++ comma_unless first) }
{
    if first {
        Ok(())
    } else {
        out.punct(Punct::Comma)
    }
}

pub(crate) fn add_parameters<'a>(
    names: &'a List<Ident>,
    out: &mut Pieces<'a>,
) -> Result<(), NoMemory>
    ensures { OnOk result (out.new ≡ out.old ++ parameters (map view_ident names.now)) }
{
    out.punct(Punct::LeftParen)?;
    if let [first, rest @ ..] = names.items() {
        out.name(&first.text)?;
        add_further_names(rest, out)?;
    }
    out.punct(Punct::RightParen)
}

pub(crate) fn add_further_names<'a>(
    names: &'a [Ident],
    out: &mut Pieces<'a>,
) -> Result<(), NoMemory>
    ensures { OnOk result (out.new ≡ out.old ++ further_names (map view_ident names.now)) }
{
    for name in names {
        out.punct(Punct::Comma)?;
        out.name(&name.text)?;
    }
    Ok(())
}

pub(crate) fn add_optional_name<'a>(
    name: &'a Option<Ident>,
    out: &mut Pieces<'a>,
) -> Result<(), NoMemory>
    ensures { OnOk result (out.new ≡ out.old ++ optional_name (option_map view_ident name.now)) }
{
    match name {
        Some(name) => out.name(&name.text),
        None => Ok(()),
    }
}

pub(crate) fn add_directive<'a>(strict: bool, out: &mut Pieces<'a>) -> Result<(), NoMemory>
    ensures { OnOk result (out.new ≡ out.old ++ directive strict) }
{
    if strict {
        out.strict()?;
        out.punct(Punct::Semicolon)
    } else {
        Ok(())
    }
}
