//! How statements complete around others (12.6, 12.11, 12.12, 12.14).
ghost use Rattle.std.specs.Prelude.{◌≡◌};
ghost use Rattle.jl_meaning.specs.Parts.{Part};
ghost use Rattle.jl_meaning.specs.forms.Jumps.{after_labelled};
ghost use Rattle.jl_meaning.specs.forms.Loops.{after_body};
ghost use Rattle.jl_meaning.specs.forms.Switch.{after_switch};
ghost use Rattle.jl_meaning.specs.forms.Try.{unless_abrupt};
ghost use Rattle.jl_state.specs.Turns.{labels_seen};
ghost use Rattle.jl_statement.specs.inner.Ends.{ends_or};
ghost use Rattle.jl_value.specs.declared.ending.Completion.{Completion as Ended};

use jl_state::is_among;
use jl_text::Text;
use jl_value::Completion;

/// A labelled statement completes normally with a break that has its label (12.12).
pub(crate) fn after_labelled(label: &Text, how: Completion) -> Completion
    ensures { result ≡ after_labelled label.now how }
{
    match how {
        Completion::Normal => Completion::Normal,
        Completion::Return(v) => Completion::Return(v),
        Completion::Throw(v) => Completion::Throw(v),
        Completion::Continue(x) => Completion::Continue(x),
        Completion::Break(None) => Completion::Break(None),
        Completion::Break(Some(x)) => after_break(label, x),
    }
}

/// The same of a break that has this label.
fn after_break(label: &Text, x: Text) -> Completion
    ensures { result ≡ after_labelled label.now (Completion.Break (Some x)) }
{
    if label.units() == x.units() {
        return Completion::Normal;
    }
    Completion::Break(Some(x))
}

/// A `switch` completes normally with a break that has no label (12.11).
pub(crate) fn after_switch(how: Completion) -> Completion
    ensures { result ≡ after_switch how }
{
    match how {
        Completion::Normal => Completion::Normal,
        Completion::Return(v) => Completion::Return(v),
        Completion::Throw(v) => Completion::Throw(v),
        Completion::Continue(x) => Completion::Continue(x),
        Completion::Break(None) => Completion::Normal,
        Completion::Break(Some(x)) => Completion::Break(Some(x)),
    }
}

/// After a `finally` that completes normally, what completed before it counts (12.14).
pub(crate) fn unless_abrupt(before: Completion, how: Completion) -> Completion
    ensures { result ≡ unless_abrupt before how }
{
    match how {
        Completion::Normal => before,
        Completion::Return(v) => Completion::Return(v),
        Completion::Throw(v) => Completion::Throw(v),
        Completion::Break(x) => Completion::Break(x),
        Completion::Continue(x) => Completion::Continue(x),
    }
}

/// How a loop with these labels completes after its body, or `None` where it goes on (12.6.1 to 12.6.4).
pub(crate) fn after_body(labels: &[&Text], how: Completion) -> Option<Completion>
    ensures { (next : Part Ended) → after_body (labels_seen labels.now) next how ≡ ends_or next result }
{
    match how {
        Completion::Normal => None,
        Completion::Continue(None) => None,
        Completion::Continue(Some(x)) => after_continue(labels, x),
        Completion::Break(None) => Some(Completion::Normal),
        Completion::Break(Some(x)) => Some(Completion::Break(Some(x))),
        Completion::Return(v) => Some(Completion::Return(v)),
        Completion::Throw(v) => Some(Completion::Throw(v)),
    }
}

/// The same of a continue that has this label.
fn after_continue(labels: &[&Text], x: Text) -> Option<Completion>
    ensures { (next : Part Ended) → after_body (labels_seen labels.now) next (Completion.Continue (Some x))
        ≡ ends_or next result }
{
    if is_among(&x, labels) {
        return None;
    }
    Some(Completion::Continue(Some(x)))
}
