//! Copies of names.
ghost use Rattle.std.specs.Prelude.{◌≡◌, IfOk};

use jl_ast::Ident;
use jl_text::{List, NoMemory};
use std::alloc::Global;

/// The same name.
pub fn copy_of(alloc: Global, x: &Ident) -> Result<Ident, NoMemory>
    ensures { IfOk result (λ made. made ≡ x.now) }
{
    Ok(Ident {
        text: x.text.share(alloc)?,
        span: x.span,
    })
}

/// The same name, if there is one.
pub fn copy_if_present(alloc: Global, x: &Option<Ident>) -> Result<Option<Ident>, NoMemory>
    ensures { IfOk result (λ made. made ≡ x.now) }
{
    match x {
        Some(x) => Ok(Some(copy_of(alloc, x)?)),
        None => Ok(None),
    }
}

/// The same names.
pub fn copies_of(alloc: Global, names: &[Ident]) -> Result<List<Ident>, NoMemory>
    ensures { IfOk result (λ made. made ≡ names.now) }
{
    let mut made = List::new(alloc);
    for x in names {
        made.push(copy_of(alloc, x)?)?;
    }
    Ok(made)
}
