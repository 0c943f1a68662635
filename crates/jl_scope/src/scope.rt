#![tactic(auto, using(jl_ast::proofs::Views::nodes))]

ghost use Rattle.std.specs.Prelude.{◌≡◌, [], ◌∷◌, map, IfOk, option_map};
ghost use Rattle.jl_ast.specs.View.{view_ident, view_body, view_statement};
ghost use Rattle.jl_scope.specs.Hoisting.{bound_by_body, bound_by_function};
ghost use Rattle.jl_scope.specs.Scope.{bind, has_label, has_loop_label, is_loop, in_a_loop, in_a_switch};
ghost use Rattle.jl_scope.specs.inner.Steps.{scope_of, label_of};

use crate::hoisting::{add_body, add_function};
use crate::names::{is_among, is_left_out, same_text};
use jl_ast::{Body, Ident, Stmt, StmtKind};
use jl_text::{NoMemory, Text};
use std::alloc::Global;

/// A label that stands round a part, and whether it is in the label set of a loop (12.12).
#[derive(Clone, Copy)]
pub(crate) struct Label<'s> {
    pub(crate) name: &'s [u16],
    pub(crate) of_loop: bool,
}

/// What stands round a part of a program, with the allocator for what is walked under it.
#[derive(Clone, Copy)]
pub(crate) struct Scope<'s> {
    pub(crate) alloc: Global,
    pub(crate) strict: bool,
    pub(crate) in_function: bool,
    /// Within a loop of the innermost function or the program.
    pub(crate) in_loop: bool,
    /// Within a loop or `switch` of it.
    pub(crate) can_break: bool,
    /// The labels within it, the innermost first.
    pub(crate) labels: &'s [Label<'s>],
    /// The left-out names that a function, a `catch` or the program binds, each once.
    pub(crate) bound: &'s [&'s [u16]],
}

impl<'s> Scope<'s> {
    pub(crate) fn in_a_loop(&self) -> Scope<'s>
        ensures { scope_of result ≡ in_a_loop (scope_of self.now) }
    {
        Scope {
            in_loop: true,
            can_break: true,
            ..*self
        }
    }

    pub(crate) fn in_a_switch(&self) -> Scope<'s>
        ensures { scope_of result ≡ in_a_switch (scope_of self.now) }
    {
        Scope {
            can_break: true,
            ..*self
        }
    }
}

/// These labels behind one more.
pub(crate) fn with_label<'s>(
    alloc: Global,
    label: Label<'s>,
    labels: &[Label<'s>],
) -> Result<Vec<Label<'s>>, NoMemory>
    ensures { IfOk result (λ all. all.items ≡ label.entry ∷ labels.now) }
{
    let mut all = Vec::new(alloc);
    all.push(label)?;
    all.extend_from_slice(labels)?;
    Ok(all)
}

pub(crate) fn has_label(name: &[u16], mut labels: &[Label<'_>]) -> bool
    ensures { result ≡ has_label name.now (map label_of labels.entry.now) }
{
    while let [first, rest @ ..] = labels {
        if same_text(name, first.name) {
            return true;
        }
        labels = rest;
    }
    false
}

pub(crate) fn has_loop_label(name: &[u16], mut labels: &[Label<'_>]) -> bool
    ensures { result ≡ has_loop_label name.now (map label_of labels.entry.now) }
{
    while let [first, rest @ ..] = labels {
        if first.of_loop && same_text(name, first.name) {
            return true;
        }
        labels = rest;
    }
    false
}

/// Whether the labels of a statement are in the label set of a loop (12.12).
pub(crate) fn is_loop(s: &Stmt) -> bool
    ensures { result ≡ is_loop (view_statement s.now) }
{
    match &s.kind {
        StmtKind::Labelled(_, s) => is_loop(s),
        StmtKind::DoWhile(_, _) | StmtKind::While(_, _) => true,
        StmtKind::For(_, _, _, _) | StmtKind::ForIn { .. } => true,
        _ => false,
    }
}

/// What is bound once these names are bound as well.
pub(crate) fn bind<'s>(
    alloc: Global,
    bound: &[&'s [u16]],
    names: &[&'s Text],
) -> Result<Vec<&'s [u16]>, NoMemory>
    ensures { IfOk result (λ all. map (λ n. n.now) all.items
        ≡ bind (map (λ n. n.now) bound.now) (map (λ n. n.now) names.now)) }
{
    let mut all = Vec::from_slice(alloc, bound)?;
    for name in names {
        let name = name.units();
        if is_left_out(name) && !is_among(name, all.as_slice()) {
            all.push(name)?;
        }
    }
    Ok(all)
}

/// What is bound in a program with this body.
pub(crate) fn bound_in_program<'s>(
    alloc: Global,
    body: &'s Body,
) -> Result<Vec<&'s [u16]>, NoMemory>
    ensures { IfOk result (λ all. map (λ n. n.now) all.items ≡ bind [] (bound_by_body (view_body body.now))) }
{
    let mut names = Vec::new(alloc);
    add_body(body, &mut names)?;
    bind(alloc, &[], names.as_slice())
}

/// What is bound in a function, where this is bound round it.
pub(crate) fn bound_in_function<'s>(
    alloc: Global,
    name: &'s Option<Ident>,
    params: &'s [Ident],
    body: &'s Body,
    bound: &[&'s [u16]],
) -> Result<Vec<&'s [u16]>, NoMemory>
    ensures { IfOk result (λ all. map (λ n. n.now) all.items
        ≡ bind (map (λ n. n.now) bound.now) (bound_by_function (option_map view_ident name.now)
        (map view_ident params.now) (view_body body.now))) }
{
    let mut names = Vec::new(alloc);
    add_function(name, params, body, &mut names)?;
    bind(alloc, bound, names.as_slice())
}
