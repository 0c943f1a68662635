//! The state of a run, and what steps do to it.
ghost use Rattle.std.specs.Prelude.{◌≡◌, ◌-◌, ◌<◌, ◌≤◌, ◌∷◌, [], IfOk, MatchOption, OnOk, true, false};

use crate::act::Act;
use crate::algorithm_frame::AlgorithmFrame;
use crate::boxed::Boxed;
use crate::calls::Calls;
use crate::frame::{Frame, Here};
use crate::script_function::ScriptFunction;
use crate::stack::Stack;
use crate::statement_frame::{CompletionFrame, StatementFrame};
use crate::value_frame::ValueFrame;
use jl_ast::{Expr, Stmt};
use jl_progress::Progress;
use jl_store::Store;
use jl_text::{List, NoMemory};
use jl_value::Completion;
use std::alloc::Global;

/// The state of a run: its store, the functions of the script by number, the calls that are running, the frames, the
/// bytes of the output, and how many steps are left.
#[derive(Drop)]
pub struct State<'p> {
    pub store: Store,
    pub functions: List<ScriptFunction<'p>>,
    pub calls: Calls,
    pub stack: Stack<'p>,
    pub output: List<u8>,
    pub left: u64,
}

impl<'p> State<'p> {
    ghost use Rattle.jl_ast.specs.View.{view_expression};
    ghost use Rattle.jl_effects.specs.Effects.{and_then};
    ghost use Rattle.jl_meaning.specs.Completions.{on_given};
    ghost use Rattle.jl_meaning.specs.Expressions.{evaluate};
    ghost use Rattle.jl_meaning.specs.Parts.{◌>>=◌ as ◌then◌};
    ghost use Rattle.jl_state.specs.StatementFrames.{statement_after};
    ghost use Rattle.jl_state.specs.ValueFrames.{value_after};
    ghost use Rattle.jl_state.specs.Handlers.{is_abrupt, IsUnwound, NoneHandles};
    ghost use Rattle.jl_state.specs.Rank.{ranks};
    ghost use Rattle.jl_state.specs.Clauses.{Evaluates, Executes};
    ghost use Rattle.jl_state.specs.Steps.{Took, RanOut, ValueWaits, AlgorithmWaits, StatementWaits, CompletionWaits};
    ghost use Rattle.jl_state.specs.Steps.{IsUncaught, LeavesTo};
    ghost use Rattle.jl_state.specs.Trees.{plain};
    ghost use Rattle.jl_state.specs.Words.{table_of, context_of};

    /// Where a run takes memory from.
    pub fn alloc(&self) -> Global {
        self.store.alloc()
    }

    /// Takes one of the steps that are left, and answers whether there was one.
    pub fn spend(&mut self) -> bool
        ensures took { result ≡ true → Took self.old self.new }
        ensures left { result ≡ true → self.new ≡ record self.old { left = self.old.left - 1 } }
        ensures less { result ≡ true → self.new.left < self.old.left }
        ensures ran_out { result ≡ false → RanOut self.old }
        ensures same { result ≡ false → self.new ≡ self.old }
    {
        if self.left == 0 {
            return false;
        }
        self.left -= 1;
        true
    }

    /// Takes one of the steps that are left, where one is known to be.
    pub fn take_step(&mut self)
        requires { 0 < self.old.left }
        ensures took { Took self.old self.new }
        ensures left { self.new ≡ record self.old { left = self.old.left - 1 } }
        ensures less { self.new.left < self.old.left }
    {
        self.left -= 1;
    }

    /// An expression waits for a value.
    pub fn push_value(&mut self, frame: ValueFrame<'p>) -> Result<(), NoMemory>
        ensures waits { OnOk result (ValueWaits self.old frame.entry self.new) }
        ensures pushed { OnOk result (self.new ≡ record self.old { stack = Frame.Value frame.entry ∷ self.old.stack }) }
    {
        self.stack.push(Frame::Value(frame))?;
        Ok(())
    }

    /// An algorithm waits for a value.
    pub fn push_algorithm(&mut self, frame: AlgorithmFrame) -> Result<(), NoMemory>
        ensures waits { OnOk result (AlgorithmWaits self.old frame self.new) }
        ensures pushed { OnOk result (self.new ≡ record self.old { stack = Frame.Algorithm frame ∷ self.old.stack }) }
    {
        self.stack.push(Frame::Algorithm(frame))?;
        Ok(())
    }

    /// A builtin waits for a value.
    pub fn push_builtin(&mut self, progress: Progress) -> Result<(), NoMemory>
        ensures waits { OnOk result (AlgorithmWaits self.old (AlgorithmFrame.Builtin progress) self.new) }
        ensures pushed { OnOk result (self.new ≡ record self.old {
          stack = Frame.Algorithm (AlgorithmFrame.Builtin progress) ∷ self.old.stack;
        }) }
    {
        let progress = Boxed::of(self.alloc(), progress)?;
        self.push_algorithm(AlgorithmFrame::Builtin(progress))
    }

    /// A statement waits for a value.
    pub fn push_statement(&mut self, frame: StatementFrame<'p>) -> Result<(), NoMemory>
        ensures waits { OnOk result (StatementWaits self.old frame.entry self.new) }
        ensures pushed { OnOk result (self.new ≡ record self.old {
          stack = Frame.Statement frame.entry
              ∷ self.old.stack;
        }) }
    {
        self.stack.push(Frame::Statement(frame))?;
        Ok(())
    }

    /// A statement waits for the completion of another.
    pub fn push_completion(&mut self, frame: CompletionFrame<'p>) -> Result<(), NoMemory>
        ensures waits { OnOk result (CompletionWaits self.old frame.entry self.new) }
        ensures pushed { OnOk result (self.new ≡ record self.old {
          stack = Frame.Completion frame.entry
              ∷ self.old.stack;
        }) }
    {
        self.stack.push(Frame::Completion(frame))?;
        Ok(())
    }

    /// The frames above the innermost one that handles a completion are let go. Gives the depth of that frame,
    /// counted from 0 at the bottom of the stack, or `None` where no frame handles it, and then nothing changes. What
    /// is left to do of an abrupt completion stays the same.
    pub fn unwind(&mut self, how: &Completion) -> Option<usize>
        ensures unwound { MatchOption result (NoneHandles how.now self.old.stack × (self.new ≡ self.old))
            (λ depth. IsUnwound how.now self.old.stack self.new.stack depth) }
        ensures others { self.new ≡ record self.old { stack = self.new.stack } }
        ensures leaves { is_abrupt how.now ≡ true → MatchOption result (IsUncaught self.old how.now)
            (λ _. LeavesTo self.old how.now self.new) }
        ensures bounded { ranks self.new.stack ≤ ranks self.old.stack }
    {
        self.stack.unwind(how)
    }

    /// An expression is to be evaluated, for whose value another one waits.
    pub fn evaluate(
        &mut self,
        frame: ValueFrame<'p>,
        e: &'p Expr,
        here: Here,
    ) -> Result<Act<'p>, NoMemory>
        ensures refines { Evaluates self.old
            (evaluate (table_of self.old.functions) (plain (view_expression e.now)) (context_of self.old.calls here)
            then value_after (table_of self.old.functions) self.old.calls frame.entry) result self.new }
        ensures pushed { IfOk result (λ act. (act ≡ Act.Evaluate e.entry here)
            × (self.new ≡ record self.old { stack = Frame.Value frame.entry ∷ self.old.stack })) }
    {
        self.push_value(frame)?;
        Ok(Act::Evaluate(e, here))
    }

    /// An expression is to be evaluated, for whose value a statement waits.
    pub fn evaluate_for(
        &mut self,
        frame: StatementFrame<'p>,
        e: &'p Expr,
        here: Here,
    ) -> Result<Act<'p>, NoMemory>
        ensures refines { Executes self.old
            (and_then (evaluate (table_of self.old.functions) (plain (view_expression e.now))
            (context_of self.old.calls here))
            (on_given (statement_after (table_of self.old.functions) self.old.calls frame.entry))) result self.new }
        ensures pushed { IfOk result (λ act. (act ≡ Act.Evaluate e.entry here)
            × (self.new ≡ record self.old { stack = Frame.Statement frame.entry ∷ self.old.stack })) }
    {
        self.push_statement(frame)?;
        Ok(Act::Evaluate(e, here))
    }
}
