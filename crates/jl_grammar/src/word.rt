ghost use Rattle.jl_grammar.specs.Words.{look_up, same_text, word_of};
ghost use Rattle.std.specs.Prelude.{◌≡◌, ◌∷◌, ℕ, List, map, is_some, true};

use jl_text::is_spelled;

/// A reserved word (7.6.1): the keywords, the future reserved words of all code, `null` and the boolean literals.
#[derive(Clone, Copy, PartialEq, Eq, Debug)]
pub enum Word {
    /// `break`
    Break,
    /// `do`
    Do,
    /// `instanceof`
    InstanceOf,
    /// `typeof`
    Typeof,
    /// `case`
    Case,
    /// `else`
    Else,
    /// `new`
    New,
    /// `var`
    Var,
    /// `catch`
    Catch,
    /// `finally`
    Finally,
    /// `return`
    Return,
    /// `void`
    Void,
    /// `continue`
    Continue,
    /// `for`
    For,
    /// `switch`
    Switch,
    /// `while`
    While,
    /// `debugger`
    Debugger,
    /// `function`
    Function,
    /// `this`
    This,
    /// `with`
    With,
    /// `default`
    Default,
    /// `if`
    If,
    /// `throw`
    Throw,
    /// `delete`
    Delete,
    /// `in`
    In,
    /// `try`
    Try,
    /// `class`
    Class,
    /// `const`
    Const,
    /// `enum`
    Enum,
    /// `export`
    Export,
    /// `extends`
    Extends,
    /// `import`
    Import,
    /// `super`
    Super,
    /// `null`
    Null,
    /// `true`
    True,
    /// `false`
    False,
}

/// Whether the units are these ASCII characters.
#[tactic(auto, using(crate::proofs::Spelled::spelled))]
pub fn has_spelling(units: &[u16], spelling: &[u8]) -> bool
    ensures { result ≡ same_text spelling.now units.now }
{
    is_spelled(units, spelling)
}

fn find(mut table: &[(&[u8], Word)], units: &[u16]) -> Option<Word>
    ensures { result ≡ look_up (map (λ entry. (entry.0.now, entry.1)) table.entry.now) units.now }
{
    while let [entry, rest @ ..] = table {
        if has_spelling(units, entry.0) {
            return Some(entry.1);
        }
        table = rest;
    }
    None
}

// The reserved words that begin with this unit.
fn words_from(unit: u16) -> &'static [(&'static [u8], Word)]
    ensures { (rest : List ℕ)
        → look_up (map (λ entry. (entry.0.now, entry.1)) result.now) (unit ∷ rest) ≡ word_of (unit ∷ rest) }
{
    match u8::try_from(unit) {
        Ok(b'b') => &[(b"break", Word::Break)],
        Ok(b'c') => &[
            (b"case", Word::Case),
            (b"catch", Word::Catch),
            (b"continue", Word::Continue),
            (b"class", Word::Class),
            (b"const", Word::Const),
        ],
        Ok(b'd') => &[
            (b"do", Word::Do),
            (b"debugger", Word::Debugger),
            (b"default", Word::Default),
            (b"delete", Word::Delete),
        ],
        Ok(b'e') => &[
            (b"else", Word::Else),
            (b"enum", Word::Enum),
            (b"export", Word::Export),
            (b"extends", Word::Extends),
        ],
        Ok(b'f') => &[
            (b"finally", Word::Finally),
            (b"for", Word::For),
            (b"function", Word::Function),
            (b"false", Word::False),
        ],
        Ok(b'i') => &[
            (b"instanceof", Word::InstanceOf),
            (b"if", Word::If),
            (b"in", Word::In),
            (b"import", Word::Import),
        ],
        Ok(b'n') => &[(b"new", Word::New), (b"null", Word::Null)],
        Ok(b'r') => &[(b"return", Word::Return)],
        Ok(b's') => &[(b"switch", Word::Switch), (b"super", Word::Super)],
        Ok(b't') => &[
            (b"typeof", Word::Typeof),
            (b"this", Word::This),
            (b"throw", Word::Throw),
            (b"try", Word::Try),
            (b"true", Word::True),
        ],
        Ok(b'v') => &[(b"var", Word::Var), (b"void", Word::Void)],
        Ok(b'w') => &[(b"while", Word::While), (b"with", Word::With)],
        _ => &[],
    }
}

/// The reserved word (7.6.1) with these UTF-16 units, if there is one.
pub fn reserved_word(units: &[u16]) -> Option<Word>
    ensures { result ≡ word_of units.now }
{
    let [first, ..] = units else {
        return None;
    };
    find(words_from(*first), units)
}

/// Whether these UTF-16 units are a reserved word (7.6.1): neither the name of a variable nor a label may have them.
pub fn is_reserved(units: &[u16]) -> bool
    ensures { result ≡ is_some (word_of units.now) }
{
    reserved_word(units).is_some()
}
