//! Parts of a tree with their heights.
#![tactic(auto)]

ghost use Rattle.std.specs.Prelude.{◌≡◌, ℕ, ◌++◌, [], ◌∷◌, Some, None, OnOk, OnErr};
ghost use Rattle.jl_ast.specs.Height.{height, forest_height, optional_height};
ghost use Rattle.jl_ast.specs.View.{view_body, view_case, view_cases, view_declarator, view_declarators, view_entries};
ghost use Rattle.jl_ast.specs.View.{view_entry, view_expression, view_expressions, view_function, view_functions};
ghost use Rattle.jl_ast.specs.View.{view_init, view_items, view_optional, view_statement, view_statements, view_target};

use jl_ast::{Body, Case, Entry, Expr, ForInit, Function, Ident, Stmt, Target};
use jl_text::List;
use std::alloc::AllocError;
use std::marker::Model;

/// A part of a tree, which has a height.
pub trait Tall {
    // The number of nodes on the longest way down it.
    ghost height_of: { Self → ℕ };
}

impl Tall for Box<Expr> {
    ghost height_of = { λ e. height (view_expression e.value) };
}

impl Tall for Box<Target> {
    ghost height_of = { λ t. height (view_target t.value) };
}

impl Tall for Option<Expr> {
    ghost height_of = { λ e. optional_height (view_optional e) };
}

impl Tall for Stmt {
    ghost height_of = { λ s. height (view_statement s) };
}

impl Tall for Function {
    ghost height_of = { λ f. height (view_function f) };
}

impl Tall for Body {
    ghost height_of = { λ b. height (view_body b) };
}

impl Tall for Entry {
    ghost height_of = { λ e. height (view_entry e) };
}

impl Tall for (Ident, Option<Expr>) {
    ghost height_of = { λ d. height (view_declarator d) };
}

impl Tall for ForInit {
    ghost height_of = { λ i. height (view_init i) };
}

impl Tall for Case {
    ghost height_of = { λ c. height (view_case c) };
}

// The parameter of a `catch`, and what it holds.
impl Tall for (Ident, List<Stmt>) {
    ghost height_of = { λ c. forest_height (view_statements c.1) };
}

impl Tall for List<Expr> {
    ghost height_of = { λ l. forest_height (view_expressions l) };
}

impl Tall for List<Option<Expr>> {
    ghost height_of = { λ l. forest_height (view_items l) };
}

impl Tall for List<Entry> {
    ghost height_of = { λ l. forest_height (view_entries l) };
}

impl Tall for List<Stmt> {
    ghost height_of = { λ l. forest_height (view_statements l) };
}

impl Tall for List<Function> {
    ghost height_of = { λ l. forest_height (view_functions l) };
}

impl Tall for List<(Ident, Option<Expr>)> {
    ghost height_of = { λ l. forest_height (view_declarators l) };
}

impl Tall for List<Case> {
    ghost height_of = { λ l. forest_height (view_cases l) };
}

/// A part of a tree with its height. Contracts see it as the part.
#[derive(Drop)]
pub struct Part<T: Tall> {
    node: T,
    height: u64,
}

impl<T: Tall> Model for Part<T> {
    ghost Value = { T };

    ghost view = { λ part. part.node };

    ghost invariant = { λ part. part.height ≡ T.height_of part.node };
}

impl<T: Tall> Part<T> {
    /// A part that is so high.
    pub fn new(node: T, height: u64) -> Part<T>
        requires { height ≡ T.height_of node }
        ensures { result ≡ node }
    {
        Part { node, height }
    }

    /// A part that has no nodes yet.
    pub fn flat(node: T) -> Part<T>
        requires { T.height_of node ≡ 0 }
        ensures { result ≡ node }
    {
        Part { node, height: 0 }
    }

    /// How high it is.
    pub fn height(&self) -> u64
        ensures { result ≡ T.height_of self.now }
    {
        self.height
    }

    /// The part alone.
    pub fn into_node(self) -> T
        ensures { result ≡ self }
    {
        self.node
    }
}

/// Adds an argument at the end.
#[tactic(auto, using(crate::proofs::Heights::argument_higher))]
pub fn push_argument(list: &mut Part<List<Expr>>, e: Part<Box<Expr>>) -> Result<(), AllocError>
    ensures ok { OnOk result (list.new ≡ list.old ++ (e.value ∷ [])) }
    ensures err { OnErr result (list.new ≡ list.old) }
{
    list.node.push(Box::into_inner(e.node))?;
    list.height = list.height.max(e.height);
    Ok(())
}

/// Adds a hole to an array at the end.
#[tactic(auto, using(crate::proofs::Heights::hole_higher))]
pub fn push_hole(list: &mut Part<List<Option<Expr>>>) -> Result<(), AllocError>
    ensures ok { OnOk result (list.new ≡ list.old ++ (None ∷ [])) }
    ensures err { OnErr result (list.new ≡ list.old) }
{
    list.node.push(None)
}

/// Adds an item to an array at the end.
#[tactic(auto, using(crate::proofs::Heights::item_higher))]
pub fn push_item(list: &mut Part<List<Option<Expr>>>, e: Part<Box<Expr>>) -> Result<(), AllocError>
    ensures ok { OnOk result (list.new ≡ list.old ++ (Some e.value ∷ [])) }
    ensures err { OnErr result (list.new ≡ list.old) }
{
    list.node.push(Some(Box::into_inner(e.node)))?;
    list.height = list.height.max(e.height);
    Ok(())
}

/// Adds a property at the end.
#[tactic(auto, using(crate::proofs::Heights::entry_higher))]
pub fn push_entry(list: &mut Part<List<Entry>>, e: Part<Entry>) -> Result<(), AllocError>
    ensures ok { OnOk result (list.new ≡ list.old ++ (e ∷ [])) }
    ensures err { OnErr result (list.new ≡ list.old) }
{
    list.node.push(e.node)?;
    list.height = list.height.max(e.height);
    Ok(())
}

/// Adds a statement at the end.
#[tactic(auto, using(crate::proofs::Heights::statement_higher))]
pub fn push_statement(list: &mut Part<List<Stmt>>, s: Part<Stmt>) -> Result<(), AllocError>
    ensures ok { OnOk result (list.new ≡ list.old ++ (s ∷ [])) }
    ensures err { OnErr result (list.new ≡ list.old) }
{
    list.node.push(s.node)?;
    list.height = list.height.max(s.height);
    Ok(())
}

/// Adds a function declaration at the end.
#[tactic(auto, using(crate::proofs::Heights::function_higher))]
pub fn push_function(list: &mut Part<List<Function>>, f: Part<Function>) -> Result<(), AllocError>
    ensures ok { OnOk result (list.new ≡ list.old ++ (f ∷ [])) }
    ensures err { OnErr result (list.new ≡ list.old) }
{
    list.node.push(f.node)?;
    list.height = list.height.max(f.height);
    Ok(())
}

/// Adds a variable at the end.
#[tactic(auto, using(crate::proofs::Heights::declarator_higher))]
pub fn push_declarator(
    list: &mut Part<List<(Ident, Option<Expr>)>>,
    d: Part<(Ident, Option<Expr>)>,
) -> Result<(), AllocError>
    ensures ok { OnOk result (list.new ≡ list.old ++ (d ∷ [])) }
    ensures err { OnErr result (list.new ≡ list.old) }
{
    list.node.push(d.node)?;
    list.height = list.height.max(d.height);
    Ok(())
}

/// Adds a clause of a `switch` at the end.
#[tactic(auto, using(crate::proofs::Heights::case_higher))]
pub fn push_case(list: &mut Part<List<Case>>, c: Part<Case>) -> Result<(), AllocError>
    ensures ok { OnOk result (list.new ≡ list.old ++ (c ∷ [])) }
    ensures err { OnErr result (list.new ≡ list.old) }
{
    list.node.push(c.node)?;
    list.height = list.height.max(c.height);
    Ok(())
}
