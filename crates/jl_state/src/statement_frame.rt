//! Statements that wait for a value, or for the completion of another.
use crate::boxed::Boxed;
use crate::frame::Here;
use crate::labels::Labels;
use crate::remaining::Remaining;
use jl_ast::{Case, Expr, Ident, Stmt};
use jl_text::{List, Text};
use jl_value::{Completion, Value};

/// The properties that a `for-in` may still visit (12.6.4), seen as their list, the next one first.
#[derive(Drop)]
pub struct Visits {
    pub visits: List<Visit>,
    pub from: usize,
}

/// A property that a `for-in` may visit: the object that has it, its name, and its serial, which is none for a unit of
/// a String object.
#[derive(Drop)]
pub struct Visit {
    pub holder: usize,
    pub name: Text,
    pub serial: Option<u64>,
}

/// A loop (12.6).
#[derive(Drop)]
pub enum Loop<'p> {
    Do {
        body: &'p List<Stmt>,
        test: &'p Expr,
    },
    While {
        test: &'p Expr,
        body: &'p List<Stmt>,
    },
    For {
        test: &'p Option<Expr>,
        update: &'p Option<Expr>,
        body: &'p List<Stmt>,
    },
    ForIn {
        variable: &'p Text,
        visits: Boxed<Visits>,
        body: &'p List<Stmt>,
    },
}

/// A loop, where it runs and its labels (12.12), the innermost one first.
#[derive(Drop)]
pub struct LoopTurn<'p> {
    pub kind: Loop<'p>,
    pub here: Here,
    pub labels: Labels<'p>,
}

/// A statement that waits for a value.
#[derive(Drop)]
pub enum StatementFrame<'p> {
    /// An expression statement (12.4).
    Expression,
    /// Variables, after an initialiser (12.2).
    Variables {
        rest: Remaining<'p, (Ident, Option<Expr>)>,
        here: Here,
    },
    /// The head of a `for`, after an initialiser or an expression (12.6.3).
    ForHead {
        rest: Remaining<'p, (Ident, Option<Expr>)>,
        turn: Boxed<LoopTurn<'p>>,
    },
    /// The head of a `for`, after an expression.
    ForExpression {
        turn: Boxed<LoopTurn<'p>>,
    },
    /// An `if` waits for its test (12.5).
    If {
        then: &'p List<Stmt>,
        otherwise: &'p Option<List<Stmt>>,
        here: Here,
    },
    /// A `for-in` waits for its object (12.6.4).
    ForInObject {
        variable: &'p Text,
        body: &'p List<Stmt>,
        here: Here,
        labels: Labels<'p>,
    },
    /// A turn of a `for-in`, whose variable has been put.
    ForInBody {
        turn: Boxed<LoopTurn<'p>>,
    },
    /// A loop waits for its test.
    Test {
        turn: Boxed<LoopTurn<'p>>,
    },
    /// A `for` waits for its update.
    Update {
        turn: Boxed<LoopTurn<'p>>,
    },
    /// `return` (12.9).
    Return,
    /// `throw` (12.13).
    Throw,
    /// A `switch` waits for its value (12.11).
    Switch {
        cases: &'p List<Case>,
        here: Here,
    },
    /// It waits for the value of the case at this index.
    CaseTest {
        value: Value,
        index: usize,
        cases: &'p List<Case>,
        here: Here,
    },
}

/// A statement that waits for the completion of another.
#[derive(Drop)]
pub enum CompletionFrame<'p> {
    /// Those that follow in a list (12.1).
    Statements {
        rest: Remaining<'p, Stmt>,
        here: Here,
    },
    /// The clauses that follow in a `switch`.
    Clauses {
        rest: Remaining<'p, Case>,
        here: Here,
    },
    /// The `switch` around the clauses (12.11).
    Switch,
    /// A labelled statement (12.12).
    Labelled {
        label: &'p Text,
    },
    /// A loop, of whose body a turn ends (12.6).
    LoopBody {
        turn: Boxed<LoopTurn<'p>>,
    },
    /// A `try` waits for its block (12.14).
    TryBlock {
        catch: &'p Option<(Ident, List<Stmt>)>,
        finally: &'p Option<List<Stmt>>,
        here: Here,
    },
    /// It waits for its `catch`.
    CatchBlock {
        finally: &'p Option<List<Stmt>>,
        here: Here,
    },
    /// It waits for its `finally`.
    FinallyBlock {
        before: Completion,
    },
}
