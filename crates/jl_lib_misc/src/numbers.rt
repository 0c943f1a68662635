//! `Number`, and the functions of its prototype (15.7).
ghost use Rattle.std.specs.Prelude.{◌≡◌, ◌≤◌, pos, IfOk, IfSome, Some};
ghost use Rattle.jl_meaning.specs.Conversions.{to_integer};
ghost use Rattle.jl_meaning.specs.Parts.{◌>>=◌ as ◌then◌};
ghost use Rattle.jl_meaning.specs.builtins.Arguments.{unless_undefined, value_or_object};
ghost use Rattle.jl_meaning.specs.builtins.Number.{number_constructor, number_inside, number_of_receiver};
ghost use Rattle.jl_meaning.specs.builtins.Number.{number_to_string, number_value_of, string_in_radix};
ghost use Rattle.jl_lib_misc.specs.inner.Numbers.{number_or_object, radix_of};
ghost use Rattle.jl_num.specs.Digits.{number_text};
ghost use Rattle.jl_progress.specs.Numbers.{number_after};
ghost use Rattle.jl_progress.specs.declared.number.NumberProgress.TheVariants as progress;
ghost use Rattle.jl_state.specs.Clauses.{Computes, RankAtMost};
ghost use Rattle.jl_state.specs.Words.{call_of};

use jl_algorithm::throw_native;
use jl_builtin::{argument, integer_of, value_from, wait_for_number};
use jl_heap::Inner;
use jl_num::{Num, NumberOutside, digits};
use jl_operator::number_of;
use jl_progress::{NumberProgress, Progress};
use jl_state::{Act, Invocation, State};
use jl_store::Store;
use jl_text::{List, NoMemory, Text, TextFault};
use jl_value::{Class, ErrorKind, Fault, ObjId, Value, is_undefined};
use std::alloc::Global;

/// A primitive value, or with `new` an object that stands for it (15.6.2.1, 15.7.2.1).
pub(crate) fn value_or_object<'p>(
    state: &mut State<'p>,
    by_new: bool,
    class: Class,
    proto: ObjId,
    v: Value,
) -> Result<Act<'p>, NoMemory>
    ensures refines { Computes state.old (value_or_object by_new class proto v) result state.new }
    ensures bounded { RankAtMost state.old 3 result state.new }
{
    if !by_new {
        return Ok(Act::Give(v));
    }
    let id = state.store.new_wrapper(class, proto, v)?;
    Ok(Act::Give(Value::Obj(id)))
}

/// A number, or with `new` an object that stands for it.
fn number_or_object<'p>(state: &mut State<'p>, by_new: bool, n: Num) -> Result<Act<'p>, NoMemory>
    ensures refines { Computes state.old (number_or_object by_new n) result state.new }
    ensures bounded { RankAtMost state.old 3 result state.new }
{
    value_or_object(
        state,
        by_new,
        Class::Number,
        ObjId::NUMBER_PROTOTYPE,
        Value::Num(n),
    )
}

/// `Number(value)` and `new Number(value)` (15.7.1.1, 15.7.2.1).
pub(crate) fn number_constructor<'p>(
    state: &mut State<'p>,
    call: &Invocation,
) -> Result<Act<'p>, NoMemory>
    ensures refines { Computes state.old (number_constructor (call_of call.now)) result state.new }
    ensures bounded { RankAtMost state.old 22 result state.new }
{
    let alloc = state.alloc();
    let by_new = call.by_new;
    match value_from(alloc, call.args.items(), 0)? {
        None => number_or_object(state, by_new, zero()),
        Some((v, _)) => {
            let progress = Progress::Number(NumberProgress::Given { by_new });
            wait_for_number(state, progress, v)
        }
    }
}

/// The number that `Number` stands for without an argument.
fn zero() -> Num
    ensures { result ≡ Some (pos 0) }
{
    match Num::new(0) {
        Ok(zero) => zero,
        Err(NumberOutside) => unreachable!(),
    }
}

/// Goes on with the argument of `Number`.
pub(crate) fn resume_given<'p>(
    state: &mut State<'p>,
    by_new: bool,
    p: &Value,
) -> Result<Act<'p>, NoMemory>
    ensures refines { Computes state.old (number_after (progress.Given by_new) p.now) result state.new }
    ensures bounded { RankAtMost state.old 3 result state.new }
{
    match number_of(p) {
        Ok(n) => number_or_object(state, by_new, n),
        Err(NumberOutside) => Ok(Act::Fault(Fault::NumberOutside)),
    }
}

/// The number that an object stands for, if it is a `Number` object.
fn number_inside(class: Class, inner: &Inner) -> Option<Num>
    ensures { result ≡ number_inside class inner.now }
{
    match (class, inner) {
        (Class::Number, Inner::Wrapped(Value::Num(n))) => Some(*n),
        _ => None,
    }
}

/// The number that `this` stands for, if it is one.
fn number_of_receiver(store: &Store, this: &Value) -> Option<Num>
    ensures { result ≡ number_of_receiver store.now.heap this.now }
{
    match this {
        Value::Num(n) => Some(*n),
        Value::Obj(id) => number_inside(store.class_of(*id), store.inner_of(*id)),
        _ => None,
    }
}

/// The text of ASCII characters, which are far fewer than a text may have.
fn text_of_characters(alloc: Global, characters: &[u8]) -> Result<Text, NoMemory>
    ensures { IfOk result (λ text. text ≡ characters.now) }
{
    let mut units = List::new(alloc);
    for character in characters {
        units.push(u16::from(*character))?;
    }
    match Text::from_units(alloc, units.items()) {
        Ok(text) => Ok(text),
        Err(TextFault::NoMemory | TextFault::TooLong) => Err(NoMemory),
    }
}

/// The text of a number in a radix.
fn text_in_radix(alloc: Global, n: Num, radix: u32) -> Result<Text, NoMemory>
    requires low { 2 ≤ radix }
    requires high { radix ≤ 36 }
    ensures { IfOk result (λ text. text ≡ number_text n radix) }
{
    let characters = digits(alloc, n, radix)?;
    text_of_characters(alloc, characters.as_slice())
}

/// The radix that an integer is, if it is one.
fn radix_of(radix: i64) -> Option<u32>
    ensures value { result ≡ radix_of radix }
    ensures within { IfSome result (λ r. (2 ≤ r) × (r ≤ 36)) }
{
    match u32::try_from(radix) {
        Ok(radix) if 2 <= radix && radix <= 36 => Some(radix),
        _ => None,
    }
}

/// The string of a number is given in a radix, or a RangeError is thrown where it isn't 2 to 36.
fn give_in_radix<'p>(state: &mut State<'p>, n: Num, radix: i64) -> Result<Act<'p>, NoMemory>
    ensures refines { Computes state.old (string_in_radix n radix) result state.new }
    ensures bounded { RankAtMost state.old 3 result state.new }
{
    let alloc = state.alloc();
    match radix_of(radix) {
        Some(radix) => Ok(Act::Give(Value::Text(text_in_radix(alloc, n, radix)?))),
        None => throw_native(state, ErrorKind::RangeError, "bad radix"),
    }
}

/// The radix is converted, or is 10 where it is undefined.
fn convert_radix<'p>(state: &mut State<'p>, number: Num, radix: Value) -> Result<Act<'p>, NoMemory>
    ensures refines { Computes state.old (unless_undefined (pos 10) to_integer radix then string_in_radix number)
        result state.new }
    ensures bounded { RankAtMost state.old 22 result state.new }
{
    if is_undefined(&radix) {
        return give_in_radix(state, number, 10);
    }
    let progress = Progress::Number(NumberProgress::Radix { number });
    wait_for_number(state, progress, radix)
}

/// `Number.prototype.toString(radix)` (15.7.4.2).
pub(crate) fn number_to_string<'p>(
    state: &mut State<'p>,
    call: &Invocation,
) -> Result<Act<'p>, NoMemory>
    ensures refines { Computes state.old (number_to_string (call_of call.now)) result state.new }
    ensures bounded { RankAtMost state.old 22 result state.new }
{
    let alloc = state.alloc();
    match number_of_receiver(&state.store, &call.this) {
        Some(n) => {
            let radix = argument(alloc, call.args.items(), 0)?;
            convert_radix(state, n, radix)
        }
        None => throw_native(state, ErrorKind::TypeError, "wrong receiver"),
    }
}

/// Goes on with the radix.
pub(crate) fn resume_radix<'p>(
    state: &mut State<'p>,
    number: Num,
    p: &Value,
) -> Result<Act<'p>, NoMemory>
    ensures refines { Computes state.old (number_after (progress.Radix number) p.now) result state.new }
    ensures bounded { RankAtMost state.old 3 result state.new }
{
    match number_of(p) {
        Ok(radix) => give_in_radix(state, number, integer_of(radix)),
        Err(NumberOutside) => Ok(Act::Fault(Fault::NumberOutside)),
    }
}

/// `Number.prototype.valueOf()` (15.7.4.4).
pub(crate) fn number_value_of<'p>(
    state: &mut State<'p>,
    call: &Invocation,
) -> Result<Act<'p>, NoMemory>
    ensures refines { Computes state.old (number_value_of (call_of call.now)) result state.new }
    ensures bounded { RankAtMost state.old 3 result state.new }
{
    match number_of_receiver(&state.store, &call.this) {
        Some(n) => Ok(Act::Give(Value::Num(n))),
        None => throw_native(state, ErrorKind::TypeError, "wrong receiver"),
    }
}
