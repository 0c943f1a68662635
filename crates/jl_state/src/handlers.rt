//! Which frames handle a completion (clause 12).
ghost use Rattle.std.specs.Prelude.{◌≡◌};
ghost use Rattle.jl_scope.specs.Names.{among};
ghost use Rattle.jl_state.specs.Handlers.{catch_handles, completion_handles, completion_is_handler, handles};
ghost use Rattle.jl_state.specs.Handlers.{is_handler, label_handles, loop_handles, switch_handles, try_handles};
ghost use Rattle.jl_state.specs.Handlers.{is_abrupt};
ghost use Rattle.jl_state.specs.Turns.{labels_seen};

use crate::frame::Frame;
use crate::statement_frame::CompletionFrame;
use jl_text::Text;
use jl_value::Completion;

/// Whether a frame takes this completion.
pub(crate) fn handles<'p>(frame: &Frame<'p>, how: &Completion) -> bool
    ensures { result ≡ handles frame.now how.now }
{
    match frame {
        Frame::Value(_) => false,
        Frame::Algorithm(_) => false,
        Frame::Statement(_) => false,
        Frame::Completion(frame) => completion_handles(frame, how),
        Frame::Told(_) => false,
        Frame::Give(_) => false,
        Frame::Body => is_abrupt(how),
    }
}

fn completion_handles<'p>(frame: &CompletionFrame<'p>, how: &Completion) -> bool
    ensures { result ≡ completion_handles frame.now how.now }
{
    match frame {
        CompletionFrame::Statements { .. } => false,
        CompletionFrame::Clauses { .. } => false,
        CompletionFrame::Switch => switch_handles(how),
        CompletionFrame::Labelled { label } => label_handles(label, how),
        CompletionFrame::LoopBody { turn } => loop_handles(turn.get().labels.items(), how),
        CompletionFrame::TryBlock { catch, finally, .. } => {
            try_handles(catch.is_some(), finally.is_some(), how)
        }
        CompletionFrame::CatchBlock { finally, .. } => catch_handles(finally.is_some(), how),
        CompletionFrame::FinallyBlock { .. } => false,
    }
}

/// Whether it is any completion but a normal one (8.9).
pub fn is_abrupt(how: &Completion) -> bool
    ensures { result ≡ is_abrupt how.now }
{
    match how {
        Completion::Normal => false,
        _ => true,
    }
}

fn loop_handles(labels: &[&Text], how: &Completion) -> bool
    ensures { result ≡ loop_handles (labels_seen labels.now) how.now }
{
    match how {
        Completion::Break(None) => true,
        Completion::Continue(None) => true,
        Completion::Continue(Some(x)) => is_among(x, labels),
        _ => false,
    }
}

fn switch_handles(how: &Completion) -> bool
    ensures { result ≡ switch_handles how.now }
{
    match how {
        Completion::Break(None) => true,
        _ => false,
    }
}

fn label_handles(label: &Text, how: &Completion) -> bool
    ensures { result ≡ label_handles label.now how.now }
{
    match how {
        Completion::Break(Some(x)) => label.units() == x.units(),
        _ => false,
    }
}

fn try_handles(has_catch: bool, has_finally: bool, how: &Completion) -> bool
    ensures { result ≡ try_handles has_catch has_finally how.now }
{
    match how {
        Completion::Normal => false,
        Completion::Throw(_) => has_catch || has_finally,
        _ => has_finally,
    }
}

fn catch_handles(has_finally: bool, how: &Completion) -> bool
    ensures { result ≡ catch_handles has_finally how.now }
{
    match how {
        Completion::Normal => false,
        _ => has_finally,
    }
}

/// Whether there is a completion that a frame takes.
pub(crate) fn is_handler<'p>(frame: &Frame<'p>) -> bool
    ensures { result ≡ is_handler frame.now }
{
    match frame {
        Frame::Value(_) => false,
        Frame::Algorithm(_) => false,
        Frame::Statement(_) => false,
        Frame::Completion(frame) => completion_is_handler(frame),
        Frame::Told(_) => false,
        Frame::Give(_) => false,
        Frame::Body => true,
    }
}

fn completion_is_handler<'p>(frame: &CompletionFrame<'p>) -> bool
    ensures { result ≡ completion_is_handler frame.now }
{
    match frame {
        CompletionFrame::Statements { .. } => false,
        CompletionFrame::Clauses { .. } => false,
        CompletionFrame::Switch => true,
        CompletionFrame::Labelled { .. } => true,
        CompletionFrame::LoopBody { .. } => true,
        CompletionFrame::TryBlock { catch, finally, .. } => catch.is_some() || finally.is_some(),
        CompletionFrame::CatchBlock { finally, .. } => finally.is_some(),
        CompletionFrame::FinallyBlock { .. } => false,
    }
}

/// Whether a label is one of these.
pub fn is_among(x: &Text, mut labels: &[&Text]) -> bool
    ensures { result ≡ among x.now (labels_seen labels.entry.now) }
{
    while let [first, rest @ ..] = labels {
        if x.units() == first.units() {
            return true;
        }
        labels = rest;
    }
    false
}
