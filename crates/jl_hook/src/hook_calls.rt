//! Calls of hooks: which hook, with which id, and how many literals stand first.
#![tactic(auto, using(jl_ast::proofs::Views::nodes))]

ghost use Rattle.std.specs.Prelude.{◌≡◌, ◌+◌, IfOk};
ghost use Rattle.std.specs.Option.{option_and_then, option_copied, option_map};
ghost use Rattle.jl_ast.specs.View.{view_expression, view_expressions};
ghost use Rattle.jl_meaning.specs.forms.HookCalls.{asked_of, form_of, form_of_member, hook_call, id_in, literals_of};
ghost use Rattle.jl_meaning.specs.forms.HookCalls.{takes_arguments, word_in};
ghost use Rattle.jl_state.specs.Trees.{plain, plain_forest};
ghost use Rattle.jl_state.specs.Words.{hook_of, opener_of};
ghost use Rattle.jl_hook.specs.HookForms.{form_seen, hook_call_seen, hook_shape, opener_call_seen, opener_shape};
ghost use Rattle.jl_hook.specs.HookForms.{plain_hook, worded_hook};
ghost use Rattle.jl_hook.specs.inner.Literals.{id_of, id_seen, is_hooks_object, number_in, text_in};

use crate::hook_names::{CalleeForm, HookShape, OpenerShape, PlainHook, WordedHook, form_named};
use crate::signs::{assignment_named, binary_named, unary_named, update_named};
use jl_ast::{Expr, ExprKind};
use jl_num::Num;
use jl_state::{Hook, HookId, Opener};
use jl_text::{List, NoMemory, Text, is_spelled};
use std::alloc::Global;

/// A call of a hook: its id, what it is asked for, and how many literals stand before the arguments that are evaluated.
#[derive(Drop)]
pub struct HookCall {
    pub id: HookId,
    pub hook: Hook,
    pub literals: usize,
}

/// The same of a hook that begins a pair of calls.
#[derive(Clone, Copy)]
pub struct OpenerCall {
    pub id: HookId,
    pub opener: Opener,
    pub literals: usize,
}

/// What the member of this name of an expression is.
#[tactic(auto, using(crate::proofs::HookCalls::forms_of_members))]
pub fn form_of_member(object: &Expr, name: &Text) -> CalleeForm
    ensures { form_seen result ≡ form_of_member (plain (view_expression object.now)) name.now }
{
    if is_hooks_object(object) {
        form_named(name)
    } else {
        CalleeForm::NoHook
    }
}

/// What an expression is, as the callee of a call.
pub fn form_of(callee: &Expr) -> CalleeForm
    ensures { form_seen result ≡ form_of (plain (view_expression callee.now)) }
{
    match &callee.kind {
        ExprKind::Dot(object, name) => form_of_member(object, name),
        _ => CalleeForm::NoHook,
    }
}

/// A call of a hook that looks so, with these arguments, or none where they don't look as they should.
pub fn hook_call(
    alloc: Global,
    shape: HookShape,
    args: &List<Expr>,
) -> Result<Option<HookCall>, NoMemory>
    ensures { IfOk result (λ call. option_map hook_call_seen call
        ≡ hook_call (hook_shape shape) (plain_forest (view_expressions args.now))) }
{
    let Some(id) = id_in(args) else {
        return Ok(None);
    };
    match hook_asked(alloc, shape, args)? {
        None => Ok(None),
        Some(hook) => Ok(Some(HookCall {
            id,
            hook,
            literals: hook_literals(shape),
        })),
    }
}

/// The same of a hook that begins a pair of calls.
pub fn opener_call(shape: OpenerShape, args: &List<Expr>) -> Option<OpenerCall>
    ensures { option_map opener_call_seen result
        ≡ hook_call (opener_shape shape) (plain_forest (view_expressions args.now)) }
{
    let id = id_in(args)?;
    let opener = opener_asked(shape, args)?;
    Some(OpenerCall {
        id,
        opener,
        literals: opener_literals(shape),
    })
}

/// Whether the second call of a pair may have so many arguments: one, where a member is put or assigned to.
pub fn takes_arguments(shape: OpenerShape, count: usize) -> bool
    ensures { result ≡ takes_arguments (opener_shape shape) count }
{
    match shape {
        OpenerShape::Plain(Opener::Put, _) | OpenerShape::Assign(_) => count == 1,
        OpenerShape::Plain(_, _) => true,
    }
}

/// Whether an expression is the name of the object with the hooks.
#[tactic(auto, unfolding(jl_scope::specs::Names::hooks_name), using(jl_ast::proofs::Views::nodes))]
fn is_hooks_object(e: &Expr) -> bool
    ensures { result ≡ is_hooks_object (plain (view_expression e.now)) }
{
    match &e.kind {
        ExprKind::Name(name) => is_spelled(name.units(), b"J$"),
        _ => false,
    }
}

fn hook_literals(shape: HookShape) -> usize
    ensures { result ≡ literals_of (hook_shape shape) }
{
    match shape {
        HookShape::Plain(_, _) => 1,
        HookShape::Worded(_, _) => 2,
    }
}

fn opener_literals(shape: OpenerShape) -> usize
    ensures { result ≡ literals_of (opener_shape shape) }
{
    match shape {
        OpenerShape::Plain(_, _) => 1,
        OpenerShape::Assign(_) => 2,
    }
}

/// What a hook is asked for by a call with these arguments.
#[tactic(auto, using(crate::proofs::HookCalls::counts))]
fn hook_asked(alloc: Global, shape: HookShape, args: &List<Expr>) -> Result<Option<Hook>, NoMemory>
    ensures { IfOk result (λ hook. option_map hook_of hook
        ≡ asked_of (hook_shape shape) (plain_forest (view_expressions args.now))) }
{
    match shape {
        HookShape::Plain(hook, evaluated) => {
            if args.len() == 1 + usize::from(evaluated) {
                Ok(Some(plain_hook(hook)))
            } else {
                Ok(None)
            }
        }
        HookShape::Worded(hook, evaluated) => {
            if args.len() == 2 + usize::from(evaluated) {
                hook_of_word(alloc, hook, word_in(args))
            } else {
                Ok(None)
            }
        }
    }
}

/// What a hook is asked for that begins a pair of calls.
#[tactic(auto, using(crate::proofs::HookCalls::counts))]
fn opener_asked(shape: OpenerShape, args: &List<Expr>) -> Option<Opener>
    ensures { option_map opener_of result ≡ asked_of (opener_shape shape) (plain_forest (view_expressions args.now)) }
{
    match shape {
        OpenerShape::Plain(opener, evaluated) => {
            if args.len() == 1 + usize::from(evaluated) {
                Some(opener)
            } else {
                None
            }
        }
        OpenerShape::Assign(evaluated) => {
            if args.len() == 2 + usize::from(evaluated) {
                let op = assignment_named(word_in(args)?)?;
                Some(Opener::Assign(op))
            } else {
                None
            }
        }
    }
}

/// What a hook is asked for by this string, if there is one.
fn hook_of_word(
    alloc: Global,
    hook: WordedHook,
    word: Option<&Text>,
) -> Result<Option<Hook>, NoMemory>
    ensures { IfOk result (λ asked. option_map hook_of asked
        ≡ option_and_then (worded_hook hook) (option_copied word.entry)) }
{
    match word {
        None => Ok(None),
        Some(word) => worded_hook(alloc, hook, word),
    }
}

fn worded_hook(alloc: Global, hook: WordedHook, word: &Text) -> Result<Option<Hook>, NoMemory>
    ensures { IfOk result (λ asked. option_map hook_of asked ≡ worded_hook hook word.now) }
{
    match hook {
        WordedHook::Reads => Ok(Some(Hook::Reads(word.share(alloc)?))),
        WordedHook::Writes => Ok(Some(Hook::Writes(word.share(alloc)?))),
        WordedHook::Types => Ok(Some(Hook::Types(word.share(alloc)?))),
        WordedHook::Catches => Ok(Some(Hook::Catches(word.share(alloc)?))),
        WordedHook::Binary => Ok(binary_hook(word)),
        WordedHook::Unary => Ok(unary_hook(word)),
        WordedHook::Updates => Ok(update_hook(word)),
    }
}

fn binary_hook(sign: &Text) -> Option<Hook>
    ensures { option_map hook_of result ≡ worded_hook WordedHook.Binary sign.now }
{
    let op = binary_named(sign)?;
    Some(Hook::Binary(op))
}

fn unary_hook(sign: &Text) -> Option<Hook>
    ensures { option_map hook_of result ≡ worded_hook WordedHook.Unary sign.now }
{
    let op = unary_named(sign)?;
    Some(Hook::Unary(op))
}

fn update_hook(sign: &Text) -> Option<Hook>
    ensures { option_map hook_of result ≡ worded_hook WordedHook.Updates sign.now }
{
    let up = update_named(sign)?;
    Some(Hook::Updates { up })
}

fn plain_hook(hook: PlainHook) -> Hook
    ensures { hook_of result ≡ plain_hook hook }
{
    match hook {
        PlainHook::EntersScript => Hook::EntersScript,
        PlainHook::ExitsScript => Hook::ExitsScript,
        PlainHook::EntersFunction => Hook::EntersFunction,
        PlainHook::ExitsFunction => Hook::ExitsFunction,
        PlainHook::Makes => Hook::Makes,
        PlainHook::Tests => Hook::Tests,
        PlainHook::Visits => Hook::Visits,
        PlainHook::Returns => Hook::Returns,
        PlainHook::Throws => Hook::Throws,
        PlainHook::Gets => Hook::Gets,
        PlainHook::Deletes => Hook::Deletes,
    }
}

/// The id in a call of a hook: a number literal below 2^32 - 2.
#[tactic(auto, using(crate::proofs::HookCalls::ids))]
fn id_in(args: &List<Expr>) -> Option<HookId>
    ensures { option_map id_seen result ≡ id_in (plain_forest (view_expressions args.now)) }
{
    let first = args.items().first()?;
    let number = number_in(first)?;
    id_of(number)
}

/// The id that a number is, if it is one.
fn id_of(number: Num) -> Option<HookId>
    ensures { option_map id_seen result ≡ id_of number }
{
    let whole = number.value()?;
    match u32::try_from(whole) {
        Ok(id) => HookId::new(id),
        Err(_) => None,
    }
}

/// The string literal after the id.
#[tactic(auto, using(crate::proofs::HookCalls::words))]
fn word_in<'a>(args: &'a List<Expr>) -> Option<&'a Text>
    ensures { option_copied result ≡ word_in (plain_forest (view_expressions args.now)) }
{
    let [_, rest @ ..] = args.items() else {
        return None;
    };
    let second = rest.first()?;
    text_in(second)
}

/// The number that an expression is, if it is a literal of one.
fn number_in(e: &Expr) -> Option<Num>
    ensures { result ≡ number_in (plain (view_expression e.now)) }
{
    match &e.kind {
        ExprKind::Num(number) => Some(*number),
        _ => None,
    }
}

/// The text that an expression is, if it is a literal of one.
fn text_in<'a>(e: &'a Expr) -> Option<&'a Text>
    ensures { option_copied result ≡ text_in (plain (view_expression e.now)) }
{
    match &e.kind {
        ExprKind::Str(text) => Some(text),
        _ => None,
    }
}
