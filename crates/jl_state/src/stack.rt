//! The frames of a run.
ghost use Rattle.std.specs.Prelude.{◌≡◌, ◌∷◌, [], reverse, OnOk, MatchOption};
ghost use Rattle.jl_state.specs.Handlers.{frames_of, nearest_handler, AreLinked, IsInnermost, IsUnwound, NoneHandles};

use crate::frame::Frame;
use crate::handlers::{handles, is_handler};
use jl_text::NoMemory;
use jl_value::Completion;
use std::alloc::Global;
use std::marker::Model;

/// A frame, and the depth of the nearest handler below it, if there is one.
#[derive(Drop)]
struct Linked<'p> {
    frame: Frame<'p>,
    below: Option<usize>,
}

/// The frames of a run, seen as their list from the innermost one out. Beside them stands the depth of the nearest
/// handler of all, from which the links lead from handler to handler.
#[derive(Drop)]
pub struct Stack<'p> {
    frames: Vec<Linked<'p>>,
    nearest: Option<usize>,
}

impl<'p> Model for Stack<'p> {
    ghost use Rattle.std.specs.Prelude.{List, reverse};
    ghost use Rattle.jl_state.specs.declared.frame.Frame.{Frame};
    ghost use Rattle.jl_ast.specs.contracts.tree.Case as case_of;
    ghost use Rattle.jl_ast.specs.contracts.tree.Entry as entry_of;
    ghost use Rattle.jl_ast.specs.contracts.tree.Expr as expr_of;
    ghost use Rattle.jl_ast.specs.contracts.tree.Stmt as stmt_of;
    ghost use Rattle.std.specs.Coded.{codes};

    ghost Value = { List Frame };

    ghost coded = { Prim.hlevel
        (codes, case_of.the_row.coded, entry_of.the_row.coded, expr_of.the_row.coded, stmt_of.the_row.coded) };

    ghost use Rattle.jl_state.specs.Handlers.{frames_of, IsLinked};

    ghost view = { λ s. frames_of (reverse s.frames.items) };

    ghost invariant = { IsLinked };
}

impl<'p> Stack<'p> {
    /// No frame.
    pub fn new(alloc: Global) -> Self
        ensures { result ≡ [] }
    {
        Stack {
            frames: Vec::new(alloc),
            nearest: None,
        }
    }

    /// A frame more, which is the innermost one.
    pub fn push(&mut self, frame: Frame<'p>) -> Result<(), NoMemory>
        ensures { OnOk result (self.new ≡ frame.entry ∷ self.old) }
    {
        let below = self.nearest;
        let nearest = if is_handler(&frame) {
            Some(self.frames.len())
        } else {
            below
        };
        self.frames.reserve(1)?;
        self.frames.push_reserved(Linked { frame, below });
        self.nearest = nearest;
        Ok(())
    }

    /// The innermost frame is taken off.
    pub fn pop(&mut self) -> Option<Frame<'p>>
        ensures { MatchOption result ((self.old ≡ []) × (self.new ≡ [])) (λ frame. self.old ≡ frame ∷ self.new) }
    {
        let Linked { frame, below } = self.frames.pop()?;
        self.nearest = below;
        Some(frame)
    }

    /// The frames above the innermost one that takes a completion are let go. Gives the depth of that one, counted
    /// from 0 at the bottom, or `None` where no frame takes it, and then nothing changes.
    pub fn unwind(&mut self, how: &Completion) -> Option<usize>
        ensures { MatchOption result (NoneHandles how.now self.old × (self.new ≡ self.old))
            (λ depth. IsUnwound how.now self.old self.new depth) }
    {
        let depth = innermost_handler(&self.frames, self.nearest, how)?;
        self.frames.truncate(depth + 1);
        self.nearest = Some(depth);
        Some(depth)
    }
}

/// The depth of the innermost of these frames that takes a completion, by the links from handler to handler.
fn innermost_handler<'p>(
    frames: &[Linked<'p>],
    nearest: Option<usize>,
    how: &Completion,
) -> Option<usize>
    requires links { AreLinked (reverse frames.now) }
    requires nearest { nearest ≡ nearest_handler (frames_of (reverse frames.now)) }
    ensures { MatchOption result (NoneHandles how.now (frames_of (reverse frames.now)))
        (λ depth. IsInnermost how.now (reverse frames.now) depth) }
{
    let mut at = nearest;
    while let Some(depth) = at {
        let linked = frames.get(depth)?;
        if handles(&linked.frame, how) {
            return Some(depth);
        }
        at = linked.below;
    }
    None
}
