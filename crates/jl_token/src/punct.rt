ghost use Rattle.std.specs.Prelude.{◌≡◌};
ghost use Rattle.jl_token.specs.Punctuators.{punctuator_units, all_punctuators};

/// A punctuator (7.7), in the order of the standard's table; the last two are its division punctuators.
#[derive(Clone, Copy, PartialEq, Eq, Debug)]
pub enum Punct {
    /// `{`
    LeftBrace,
    /// `}`
    RightBrace,
    /// `(`
    LeftParen,
    /// `)`
    RightParen,
    /// `[`
    LeftBracket,
    /// `]`
    RightBracket,
    /// `.`
    Dot,
    /// `;`
    Semicolon,
    /// `,`
    Comma,
    /// `<`
    Less,
    /// `>`
    Greater,
    /// `<=`
    LessEqual,
    /// `>=`
    GreaterEqual,
    /// `==`
    Equal,
    /// `!=`
    NotEqual,
    /// `===`
    StrictEqual,
    /// `!==`
    StrictNotEqual,
    /// `+`
    Plus,
    /// `-`
    Minus,
    /// `*`
    Star,
    /// `%`
    Percent,
    /// `++`
    PlusPlus,
    /// `--`
    MinusMinus,
    /// `<<`
    ShiftLeft,
    /// `>>`
    ShiftRight,
    /// `>>>`
    ShiftRightUnsigned,
    /// `&`
    And,
    /// `|`
    Or,
    /// `^`
    Caret,
    /// `!`
    Bang,
    /// `~`
    Tilde,
    /// `&&`
    AndAnd,
    /// `||`
    OrOr,
    /// `?`
    Question,
    /// `:`
    Colon,
    /// `=`
    Assign,
    /// `+=`
    PlusAssign,
    /// `-=`
    MinusAssign,
    /// `*=`
    StarAssign,
    /// `%=`
    PercentAssign,
    /// `<<=`
    ShiftLeftAssign,
    /// `>>=`
    ShiftRightAssign,
    /// `>>>=`
    ShiftRightUnsignedAssign,
    /// `&=`
    AndAssign,
    /// `|=`
    OrAssign,
    /// `^=`
    CaretAssign,
    /// `/`
    Slash,
    /// `/=`
    SlashAssign,
}

impl Punct {
    /// The punctuators, longer ones before shorter ones.
    pub fn all() -> &'static [Punct]
        ensures { result.now ≡ all_punctuators }
    {
        &[
            Punct::ShiftRightUnsignedAssign,
            Punct::StrictEqual,
            Punct::StrictNotEqual,
            Punct::ShiftRightUnsigned,
            Punct::ShiftLeftAssign,
            Punct::ShiftRightAssign,
            Punct::LessEqual,
            Punct::GreaterEqual,
            Punct::Equal,
            Punct::NotEqual,
            Punct::PlusPlus,
            Punct::MinusMinus,
            Punct::ShiftLeft,
            Punct::ShiftRight,
            Punct::AndAnd,
            Punct::OrOr,
            Punct::PlusAssign,
            Punct::MinusAssign,
            Punct::StarAssign,
            Punct::PercentAssign,
            Punct::AndAssign,
            Punct::OrAssign,
            Punct::CaretAssign,
            Punct::SlashAssign,
            Punct::LeftBrace,
            Punct::RightBrace,
            Punct::LeftParen,
            Punct::RightParen,
            Punct::LeftBracket,
            Punct::RightBracket,
            Punct::Dot,
            Punct::Semicolon,
            Punct::Comma,
            Punct::Less,
            Punct::Greater,
            Punct::Plus,
            Punct::Minus,
            Punct::Star,
            Punct::Percent,
            Punct::And,
            Punct::Or,
            Punct::Caret,
            Punct::Bang,
            Punct::Tilde,
            Punct::Question,
            Punct::Colon,
            Punct::Assign,
            Punct::Slash,
        ]
    }

    /// The characters of the punctuator (7.7), all of them ASCII.
    pub fn text(self) -> &'static [u8]
        ensures { result.now ≡ punctuator_units self }
    {
        match self {
            Punct::LeftBrace => b"{",
            Punct::RightBrace => b"}",
            Punct::LeftParen => b"(",
            Punct::RightParen => b")",
            Punct::LeftBracket => b"[",
            Punct::RightBracket => b"]",
            Punct::Dot => b".",
            Punct::Semicolon => b";",
            Punct::Comma => b",",
            Punct::Less => b"<",
            Punct::Greater => b">",
            Punct::LessEqual => b"<=",
            Punct::GreaterEqual => b">=",
            Punct::Equal => b"==",
            Punct::NotEqual => b"!=",
            Punct::StrictEqual => b"===",
            Punct::StrictNotEqual => b"!==",
            Punct::Plus => b"+",
            Punct::Minus => b"-",
            Punct::Star => b"*",
            Punct::Percent => b"%",
            Punct::PlusPlus => b"++",
            Punct::MinusMinus => b"--",
            Punct::ShiftLeft => b"<<",
            Punct::ShiftRight => b">>",
            Punct::ShiftRightUnsigned => b">>>",
            Punct::And => b"&",
            Punct::Or => b"|",
            Punct::Caret => b"^",
            Punct::Bang => b"!",
            Punct::Tilde => b"~",
            Punct::AndAnd => b"&&",
            Punct::OrOr => b"||",
            Punct::Question => b"?",
            Punct::Colon => b":",
            Punct::Assign => b"=",
            Punct::PlusAssign => b"+=",
            Punct::MinusAssign => b"-=",
            Punct::StarAssign => b"*=",
            Punct::PercentAssign => b"%=",
            Punct::ShiftLeftAssign => b"<<=",
            Punct::ShiftRightAssign => b">>=",
            Punct::ShiftRightUnsignedAssign => b">>>=",
            Punct::AndAssign => b"&=",
            Punct::OrAssign => b"|=",
            Punct::CaretAssign => b"^=",
            Punct::Slash => b"/",
            Punct::SlashAssign => b"/=",
        }
    }
}
