ghost use Rattle.std.specs.Prelude.{◌≡◌};
ghost use Rattle.jl_ast.specs.Tree.{is_name};
ghost use Rattle.jl_ast.specs.View.{view_expression, view_expression_kind};

use crate::ops::{BinOp, UnOp};
use jl_num::Num;
use jl_text::{List, Span, Text};

/// An identifier (7.6), or the key of a property in an object literal (11.1.5), by its value.
#[derive(Drop)]
pub struct Ident {
    pub text: Text,
    pub span: Span,
}

/// A program (clause 14). Its span goes to the end of the last token. Dropping it recurses as deep as it is high.
#[derive(Drop)]
pub struct Program {
    pub body: Body,
    pub span: Span,
}

/// What a program or a function holds (clauses 13 and 14): whether it is strict by a directive of its own (14.1), its
/// function declarations in the order of the text, and its statements.
#[cycle(tree)]
#[derive(Drop)]
pub struct Body {
    pub strict: bool,
    pub functions: List<Function>,
    pub statements: List<Stmt>,
}

/// A function declaration or expression, or the function of an accessor (clause 13, 11.1.5). `number` counts the
/// functions of a program from 0: the declarations of a body come first, each before what it holds, then the functions
/// of its statements in the order of the text.
#[cycle(tree)]
pub struct Function {
    pub number: u32,
    pub name: Option<Ident>,
    pub params: List<Ident>,
    pub body: Body,
    pub span: Span,
}

// By hand, as those of statements and expressions: a proof calls it, where it would open a derived one with all
// variants below.
impl Drop for Function {
    #[cycle(tree)]
    fn drop(self) {
        let Function {
            number: _,
            name: _,
            params: _,
            body,
            span: _,
        } = self;
        drop(body);
    }
}

/// A statement (clause 12), from its first token to the end of its last.
#[cycle(tree)]
pub struct Stmt {
    pub kind: StmtKind,
    pub span: Span,
}

impl Drop for Stmt {
    #[cycle(tree)]
    fn drop(self) {
        let Stmt { kind, span: _ } = self;
        drop(kind);
    }
}

/// What a statement is. A statement under another is a list: that of a block, or the one statement.
#[cycle(tree)]
#[derive(Drop)]
pub enum StmtKind {
    Var(List<(Ident, Option<Expr>)>),
    Empty,
    Expr(Expr),
    Block(List<Stmt>),
    If(Expr, List<Stmt>, Option<List<Stmt>>),
    DoWhile(List<Stmt>, Expr),
    While(Expr, List<Stmt>),
    For(ForInit, Option<Expr>, Option<Expr>, List<Stmt>),
    ForIn {
        is_var: bool,
        name: Ident,
        object: Expr,
        body: List<Stmt>,
    },
    Continue(Option<Ident>),
    Break(Option<Ident>),
    Return(Option<Expr>),
    Labelled(Ident, Box<Stmt>),
    Switch(Expr, List<Case>),
    Throw(Expr),
    Try {
        body: List<Stmt>,
        catch: Option<(Ident, List<Stmt>)>,
        finally: Option<List<Stmt>>,
    },
    Debugger,
}

/// A clause of a `switch` (12.11): a `case` with its test, or the `default` with none.
#[cycle(tree)]
#[derive(Drop)]
pub struct Case {
    pub test: Option<Expr>,
    pub body: List<Stmt>,
}

/// What stands first in the head of a `for` (12.6.3).
#[cycle(tree)]
#[derive(Drop)]
pub enum ForInit {
    Nothing,
    Expr(Expr),
    Var(List<(Ident, Option<Expr>)>),
}

/// An expression (clause 11), from its first token to the end of its last, without brackets round it.
#[cycle(tree)]
pub struct Expr {
    pub kind: ExprKind,
    pub span: Span,
}

impl Drop for Expr {
    #[cycle(tree)]
    fn drop(self) {
        let Expr { kind, span: _ } = self;
        drop(kind);
    }
}

impl Expr {
    /// What it is, and its span.
    #[tactic(auto, using(crate::proofs::Views::nodes))]
    pub fn into_parts(self) -> (ExprKind, Span)
        ensures { view_expression_kind result.0 result.1 ≡ view_expression self }
    {
        let Expr { kind, span } = self;
        (kind, span)
    }
}

/// What an expression is. Brackets round it leave no node.
#[cycle(tree)]
#[derive(Drop)]
pub enum ExprKind {
    This,
    Name(Text),
    Num(Num),
    Str(Text),
    Bool(bool),
    Null,
    Array(List<Option<Expr>>),
    Object(List<Entry>),
    Function(Box<Function>),
    Dot(Box<Expr>, Text),
    Index(Box<Expr>, Box<Expr>),
    Call(Box<Expr>, List<Expr>),
    New(Box<Expr>, List<Expr>),
    Unary(UnOp, Box<Expr>),
    Update {
        up: bool,
        prefix: bool,
        target: Box<Target>,
    },
    Binary(BinOp, Box<Expr>, Box<Expr>),
    And(Box<Expr>, Box<Expr>),
    Or(Box<Expr>, Box<Expr>),
    Cond(Box<Expr>, Box<Expr>, Box<Expr>),
    Assign(Option<BinOp>, Box<Target>, Box<Expr>),
    Comma(Box<Expr>, Box<Expr>),
}

/// Whether it is a name (11.1.2).
#[tactic(auto, using(crate::proofs::Views::nodes))]
pub fn is_name(e: &Expr) -> bool
    ensures { result ≡ is_name (view_expression e.now) }
{
    match &e.kind {
        ExprKind::Name(_) => true,
        _ => false,
    }
}

/// What an assignment, `++` or `--` writes to (11.13, 11.3, 11.4): a name, or a member with its span.
#[cycle(tree)]
#[derive(Drop)]
pub enum Target {
    Name(Ident),
    Dot(Expr, Text, Span),
    Index(Expr, Expr, Span),
}

/// A property of an object literal (11.1.5): a value, a getter or a setter under a key.
#[cycle(tree)]
#[derive(Drop)]
pub enum Entry {
    Value(Ident, Expr),
    Get(Ident, Function),
    Set(Ident, Function),
}
