ghost use Rattle.std.specs.Prelude.{◌≡◌, IfOk};
ghost use Rattle.std.specs.String.{string_bytes};
ghost use Rattle.jl_app.specs.Refusals.{kind_word, refusal_words};

use crate::position::Position;
use jl_scope::EarlyRule;
use jl_text::Text;
use jl_token::BadKind;
use std::alloc::{AllocError, Global};

/// Why bytes are no script, in the order in which it is asked. Where several causes are there, the first is given.
#[derive(Drop)]
pub enum Refusal {
    /// They are more than a source of their form may have: 1,048,576, or 67,108,928 of a rewritten script.
    TooLong,
    /// They are not UTF-8: the longest prefix of them that is has this many.
    NotUtf8 { at: usize },
    /// An input element can't be formed.
    BadInput { kind: BadKind, at: Position },
    /// The tokens are no program within the levels of their form, 200, or 1,000 of a rewritten script, or they open
    /// more brackets than it may.
    Unreadable { at: Position },
    /// An early rule is broken.
    Early { rule: EarlyRule, at: Position },
    /// A name that is left out of the language is used freely.
    LeftOut { name: Text, at: Position },
    /// `J$` stands as a name or a label of a script.
    ReservedName { at: Position },
}

impl Refusal {
    /// The words that stand after `jlint: refused` in the answer.
    pub fn words(&self, alloc: Global) -> Result<String, AllocError>
        ensures { IfOk result (λ text. string_bytes text ≡ refusal_words self.now) }
    {
        match self {
            Refusal::TooLong => String::from_str(alloc, "TooLong"),
            Refusal::NotUtf8 { at } => format!(in alloc; "NotUtf8 at byte {at}"),
            Refusal::BadInput { kind, at } => {
                let kind = kind_word(*kind);
                format!(in alloc; "BadInput {kind} at {at}")
            }
            Refusal::Unreadable { at } => format!(in alloc; "Unreadable at {at}"),
            Refusal::Early { rule, at } => {
                let rule = rule.name();
                format!(in alloc; "Early {rule} at {at}")
            }
            Refusal::LeftOut { name, at } => {
                let name = String::from_utf16_lossy(alloc, name.units())?;
                format!(in alloc; "LeftOut {name} at {at}")
            }
            Refusal::ReservedName { at } => format!(in alloc; "ReservedName at {at}"),
        }
    }
}

/// The word for a cause for which an input element can't be formed.
fn kind_word(kind: BadKind) -> &'static str
    ensures { result.now ≡ kind_word kind }
{
    match kind {
        BadKind::UnclosedText => "UnclosedText",
        BadKind::UnclosedComment => "UnclosedComment",
        BadKind::BadEscape => "BadEscape",
        BadKind::BadNumber => "BadNumber",
        BadKind::BadCharacter => "BadCharacter",
        BadKind::LongText => "LongText",
    }
}
