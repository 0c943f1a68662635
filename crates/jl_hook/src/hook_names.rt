//! The names of hooks, and how calls of them look.
#![tactic(auto)]

ghost use Rattle.std.specs.Prelude.{◌≡◌, map};
ghost use Rattle.jl_meaning.specs.forms.HookCalls.{form_named, hooks, openers, shape_named};
ghost use Rattle.jl_hook.specs.HookForms.{form_seen};
ghost use Rattle.jl_hook.specs.inner.Tables.{form_in};

use jl_state::Opener;
use jl_text::{Text, is_spelled};

/// A hook that its name alone asks for.
#[derive(Clone, Copy)]
pub enum PlainHook {
    EntersScript,
    ExitsScript,
    EntersFunction,
    ExitsFunction,
    Makes,
    Tests,
    Visits,
    Returns,
    Throws,
    Gets,
    Deletes,
}

/// A hook that its name and a string ask for: the name of a variable, or the sign of an operator.
#[derive(Clone, Copy)]
pub enum WordedHook {
    Reads,
    Writes,
    Types,
    Catches,
    Binary,
    Unary,
    Updates,
}

/// How calls of a hook look: an id, or an id and a string, and then so many arguments that are evaluated.
#[derive(Clone, Copy)]
pub enum HookShape {
    Plain(PlainHook, u8),
    Worded(WordedHook, u8),
}

/// How the first of a pair of calls looks: an id, or an id and the sign of an operator, and then so many arguments
/// that are evaluated.
#[derive(Clone, Copy)]
pub enum OpenerShape {
    Plain(Opener, u8),
    Assign(u8),
}

/// What the callee of a call is: a hook, one that begins a pair of calls, or no hook.
#[derive(Clone, Copy)]
pub enum CalleeForm {
    Hook(HookShape),
    Opener(OpenerShape),
    NoHook,
}

/// The hooks by name, and then those that begin a pair of calls.
const HOOKS: [(&[u8], CalleeForm); 23] = [
    (
        b"S",
        CalleeForm::Hook(HookShape::Plain(PlainHook::EntersScript, 0)),
    ),
    (
        b"X",
        CalleeForm::Hook(HookShape::Plain(PlainHook::ExitsScript, 0)),
    ),
    (
        b"E",
        CalleeForm::Hook(HookShape::Plain(PlainHook::EntersFunction, 0)),
    ),
    (
        b"L",
        CalleeForm::Hook(HookShape::Plain(PlainHook::ExitsFunction, 0)),
    ),
    (
        b"T",
        CalleeForm::Hook(HookShape::Plain(PlainHook::Makes, 1)),
    ),
    (
        b"R",
        CalleeForm::Hook(HookShape::Worded(WordedHook::Reads, 1)),
    ),
    (
        b"W",
        CalleeForm::Hook(HookShape::Worded(WordedHook::Writes, 1)),
    ),
    (
        b"Y",
        CalleeForm::Hook(HookShape::Worded(WordedHook::Types, 1)),
    ),
    (
        b"H",
        CalleeForm::Hook(HookShape::Worded(WordedHook::Catches, 1)),
    ),
    (
        b"C",
        CalleeForm::Hook(HookShape::Plain(PlainHook::Tests, 1)),
    ),
    (
        b"O",
        CalleeForm::Hook(HookShape::Plain(PlainHook::Visits, 1)),
    ),
    (
        b"V",
        CalleeForm::Hook(HookShape::Plain(PlainHook::Returns, 1)),
    ),
    (
        b"K",
        CalleeForm::Hook(HookShape::Plain(PlainHook::Throws, 1)),
    ),
    (
        b"B",
        CalleeForm::Hook(HookShape::Worded(WordedHook::Binary, 2)),
    ),
    (
        b"U",
        CalleeForm::Hook(HookShape::Worded(WordedHook::Unary, 1)),
    ),
    (b"G", CalleeForm::Hook(HookShape::Plain(PlainHook::Gets, 2))),
    (
        b"Z",
        CalleeForm::Hook(HookShape::Plain(PlainHook::Deletes, 2)),
    ),
    (
        b"I",
        CalleeForm::Hook(HookShape::Worded(WordedHook::Updates, 2)),
    ),
    (b"P", CalleeForm::Opener(OpenerShape::Plain(Opener::Put, 2))),
    (b"A", CalleeForm::Opener(OpenerShape::Assign(2))),
    (
        b"F",
        CalleeForm::Opener(OpenerShape::Plain(Opener::Call, 1)),
    ),
    (b"N", CalleeForm::Opener(OpenerShape::Plain(Opener::New, 1))),
    (
        b"M",
        CalleeForm::Opener(OpenerShape::Plain(Opener::Method, 2)),
    ),
];

/// What a member of the object with the hooks is, by its name.
pub(crate) fn form_named(name: &Text) -> CalleeForm
    ensures { form_seen result ≡ form_named (shape_named name.now hooks) (shape_named name.now openers) }
{
    form_in(&HOOKS, name.units())
}

fn form_in(mut table: &[(&[u8], CalleeForm)], name: &[u16]) -> CalleeForm
    ensures { result ≡ form_in (map (λ entry. (entry.0.now, entry.1)) table.entry.now) name.now }
{
    while let [entry, rest @ ..] = table {
        if is_spelled(name, entry.0) {
            return entry.1;
        }
        table = rest;
    }
    CalleeForm::NoHook
}
