ghost use Rattle.std.specs.Prelude.{◌≡◌, ◌≤◌, ◌<◌, ◌^◌, ℕ, List as Items, true, length, IfOk, IfErr, OnOk};
ghost use Rattle.jl_ast.specs.View.{view};
ghost use Rattle.jl_grammar.specs.Program.{Reads};
ghost use Rattle.jl_scope.specs.EarlyError.{first_early_error};
ghost use Rattle.jl_simulation.specs.Plain.{HasFewIds};
ghost use Rattle.jl_text.specs.Encoding.{units_of};
ghost use Rattle.jl_token.specs.Tokens.{Tokens};
ghost use Rattle.jl_app.specs.Accepting.{IsRead, IsText, HasTokens, IsProgram};
ghost use Rattle.jl_app.specs.Forms.{is_sound, most_bytes, most_levels};
ghost use Rattle.jl_app.specs.inner.MapRows.{RowsBeginIn};
ghost use Rattle.jl_app.specs.inner.Refused.{Refuses};
ghost use Rattle.jl_app.specs.declared.accept.Unaccepted.TheVariants.{NoMemory};
ghost use Rattle.jl_app.specs.declared.form.Form.{Form as Kind};

use crate::form::Form;
use crate::refusal::Refusal;
use crate::source::Source;
use jl_ast::Program;
use jl_lex::{LexRefusal, lex};
use jl_operation_rows::laws::rows_lie_in_the_text;
use jl_parse::{ParseRefusal, parse};
use jl_scope::{ScopeRefusal, check};
use jl_simulation::laws::few_ids;
use jl_text::{List, Utf8Fault, from_utf8};
use jl_token::Token;
use std::alloc::{AllocError, Global};

/// A source that is accepted: its text, and the program that it is read as.
#[derive(Drop)]
pub(crate) struct Accepted {
    pub(crate) source: Source,
    pub(crate) program: Program,
}

/// Why bytes are not accepted.
#[derive(Drop)]
pub(crate) enum Unaccepted {
    Refused(Refusal),
    NoMemory,
}

impl From<AllocError> for Unaccepted {
    ghost from_gives = { λ _ e. e ≡ NoMemory };

    fn from(_error: AllocError) -> Unaccepted {
        Unaccepted::NoMemory
    }
}

/// The text of these bytes.
fn decode_source(alloc: Global, form: Form, bytes: &[u8]) -> Result<Source, Unaccepted>
    requires { length bytes.now ≤ most_bytes form }
    ensures text { IfOk result (λ source. IsText form bytes.now × (source ≡ units_of bytes.now)) }
    ensures refused { IfErr result (Refuses form bytes.now) }
{
    match from_utf8(alloc, bytes) {
        Ok(units) => Ok(Source::new(alloc, units)?),
        Err(Utf8Fault::NotUtf8 { at }) => Err(Unaccepted::Refused(Refusal::NotUtf8 { at })),
        Err(Utf8Fault::NoMemory) => Err(Unaccepted::NoMemory),
    }
}

/// Its tokens.
fn lex_source(alloc: Global, source: &Source) -> Result<List<Token>, Unaccepted>
    ensures tokens { IfOk result (λ tokens. Tokens source.now tokens) }
    ensures refused { (form : Kind) (bytes : Items ℕ) → IsText form bytes → source.now ≡ units_of bytes
        → IfErr result (Refuses form bytes) }
{
    match lex(alloc, source.units()) {
        Ok(tokens) => Ok(tokens),
        Err(LexRefusal::BadInput { at, kind }) => {
            let at = source.position(at);
            Err(Unaccepted::Refused(Refusal::BadInput { kind, at }))
        }
        Err(LexRefusal::NoMemory) => Err(Unaccepted::NoMemory),
    }
}

/// The program that they read as.
fn parse_tokens(
    alloc: Global,
    form: Form,
    source: &Source,
    tokens: &[Token],
) -> Result<Program, Unaccepted>
    requires { length tokens.now < 2 ^ 32 }
    ensures read { IfOk result (λ program. Reads tokens.now (most_levels form) (view program)) }
    ensures refused { (bytes : Items ℕ) → HasTokens form bytes tokens.now → source.now ≡ units_of bytes
        → IfErr result (Refuses form bytes) }
{
    match parse(alloc, tokens, form.most_levels()) {
        Ok(program) => Ok(program),
        Err(ParseRefusal::Unreadable { at }) => {
            let at = source.position(at);
            Err(Unaccepted::Refused(Refusal::Unreadable { at }))
        }
        Err(ParseRefusal::NoMemory) => Err(Unaccepted::NoMemory),
    }
}

/// Whether it breaks no early rule and uses no name that it must not. Where it may name the hooks, that is passed over.
fn check_early_errors(
    alloc: Global,
    form: Form,
    source: &Source,
    program: &Program,
) -> Result<(), Unaccepted>
    ensures sound { OnOk result (is_sound form (first_early_error (view program.now)) ≡ true) }
    ensures refused { (bytes : Items ℕ) → IsProgram form bytes (view program.now) → source.now ≡ units_of bytes
        → IfErr result (Refuses form bytes) }
{
    match check(alloc, program) {
        Ok(()) => Ok(()),
        Err(ScopeRefusal::Early { rule, span }) => {
            let at = source.position(span.from);
            Err(Unaccepted::Refused(Refusal::Early { rule, at }))
        }
        Err(ScopeRefusal::LeftOut { name, span }) => {
            let at = source.position(span.from);
            Err(Unaccepted::Refused(Refusal::LeftOut { name, at }))
        }
        Err(ScopeRefusal::ReservedName { span }) => {
            if form.may_name_hooks() {
                return Ok(());
            }
            let at = source.position(span.from);
            Err(Unaccepted::Refused(Refusal::ReservedName { at }))
        }
        Err(ScopeRefusal::NoMemory) => Err(Unaccepted::NoMemory),
    }
}

/// The program that these bytes are accepted as, with its text. Its cost is that of the lexer, the parser and the check
/// of names together; it goes as deep as the program is high.
pub(crate) fn accept(alloc: Global, form: Form, bytes: &[u8]) -> Result<Accepted, Unaccepted>
    requires { length bytes.now ≤ most_bytes form }
    ensures accepted { IfOk result (λ a. IsRead form bytes.now (view a.program) × (a.source ≡ units_of bytes.now)) }
    ensures few { IfOk result (λ a. HasFewIds (view a.program)) }
    ensures places { IfOk result (λ a. RowsBeginIn a.source (view a.program)) }
    ensures refused { IfErr result (Refuses form bytes.now) }
{
    let source = decode_source(alloc, form, bytes)?;
    let tokens = lex_source(alloc, &source)?;
    let program = parse_tokens(alloc, form, &source, tokens.items())?;
    check_early_errors(alloc, form, &source, &program)?;
    few_ids();
    rows_lie_in_the_text();
    Ok(Accepted { source, program })
}
