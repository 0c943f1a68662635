ghost use Rattle.std.specs.Prelude.{◌≡◌};
ghost use Rattle.jl_op.specs.Trace.{binary_sign, unary_sign};
ghost use Rattle.jl_op.specs.UnaryKinds.{unary_kind, update_kind};

use jl_ast::{BinOp, UnOp};

/// An operator with one operand that is told of (11.3, 11.4).
#[derive(Clone, Copy, PartialEq, Eq, Debug)]
pub enum UnKind {
    /// `-`
    Minus,
    /// `+`
    Plus,
    /// `!`
    Not,
    /// `~`
    Tilde,
    /// `typeof`, but of a name
    Typeof,
    /// `void`
    Void,
    /// `++`
    Up,
    /// `--`
    Down,
}

impl UnKind {
    /// How it is written.
    pub fn sign(self) -> &'static str
        ensures { result.now ≡ unary_sign self }
    {
        match self {
            UnKind::Minus => "-",
            UnKind::Plus => "+",
            UnKind::Not => "!",
            UnKind::Tilde => "~",
            UnKind::Typeof => "typeof",
            UnKind::Void => "void",
            UnKind::Up => "++",
            UnKind::Down => "--",
        }
    }
}

/// `++`, or `--` where `up` is false (11.3, 11.4.4, 11.4.5).
pub fn update_kind(up: bool) -> UnKind
    ensures { result ≡ update_kind up }
{
    if up { UnKind::Up } else { UnKind::Down }
}

/// The kind of an operator that is neither `typeof` of a name nor `delete` (11.4).
pub fn unary_kind(op: UnOp) -> UnKind
    ensures { result ≡ unary_kind op }
{
    match op {
        UnOp::Minus => UnKind::Minus,
        UnOp::Plus => UnKind::Plus,
        UnOp::Not => UnKind::Not,
        UnOp::Tilde => UnKind::Tilde,
        UnOp::Typeof => UnKind::Typeof,
        UnOp::Void | UnOp::Delete => UnKind::Void,
    }
}

/// How an operator between two operands is written (11.5 to 11.10).
pub fn binary_sign(op: BinOp) -> &'static str
    ensures { result.now ≡ binary_sign op }
{
    match op {
        BinOp::Mul => "*",
        BinOp::Div => "/",
        BinOp::Rem => "%",
        BinOp::Add => "+",
        BinOp::Sub => "-",
        BinOp::Shl => "<<",
        BinOp::Sar => ">>",
        BinOp::Shr => ">>>",
        BinOp::Less => "<",
        BinOp::Greater => ">",
        BinOp::LessEq => "<=",
        BinOp::GreaterEq => ">=",
        BinOp::InstanceOf => "instanceof",
        BinOp::In => "in",
        BinOp::Equal => "==",
        BinOp::NotEqual => "!=",
        BinOp::StrictEqual => "===",
        BinOp::StrictNotEqual => "!==",
        BinOp::BitAnd => "&",
        BinOp::BitXor => "^",
        BinOp::BitOr => "|",
    }
}
