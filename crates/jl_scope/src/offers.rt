//! What is wrong with names, labels and jumps by themselves.
#![tactic(auto, using(crate::proofs::Firsts::lists))]

ghost use Rattle.std.specs.Prelude.{◌≡◌, option_map};
ghost use Rattle.jl_ast.specs.View.{view_ident, view_expression};
ghost use Rattle.jl_scope.specs.Kinds.{first_from};
ghost use Rattle.jl_scope.specs.inner.Steps.{scope_of};
ghost use Rattle.jl_scope.specs.EarlyErrors.{identifier_early_errors, written_early_errors, free_early_errors};
ghost use Rattle.jl_scope.specs.EarlyErrors.{read_early_errors};
ghost use Rattle.jl_scope.specs.EarlyErrors.{target_early_errors, label_early_errors, break_early_errors};
ghost use Rattle.jl_scope.specs.EarlyErrors.{continue_early_errors};
ghost use Rattle.jl_scope.specs.EarlyErrors.{return_early_errors, delete_early_errors, is_delete};
ghost use Rattle.jl_scope.specs.EarlyErrors.{for_in_early_errors};

use crate::found::{Finding, Found};
use crate::names::{is_among, is_hooks_name, is_left_out, is_strict_name, is_strict_word};
use crate::rules::EarlyRule;
use crate::scope::{Scope, has_label, has_loop_label};
use jl_ast::{Expr, Ident, UnOp, is_name};
use jl_text::{Span, Text};

impl<'a> Found<'a> {
    /// An identifier, or a label.
    #[tactic(auto, using(crate::proofs::Firsts::lists), unfolding(crate::specs::EarlyErrors::identifier_early_errors))]
    pub(crate) fn identifier(&mut self, name: &Text, at: Span, s: &Scope<'_>)
        ensures { self.new ≡ first_from self.old (identifier_early_errors (scope_of s.now) name.now at) }
    {
        let word = s.strict && is_strict_word(name.units());
        self.offer_if(word, EarlyRule::StrictWord, at);
        if is_hooks_name(name.units()) {
            self.offer(Finding::ReservedName(at));
        }
    }

    /// A name that is bound, assigned or updated.
    #[tactic(auto, using(crate::proofs::Firsts::lists), unfolding(crate::specs::EarlyErrors::written_early_errors))]
    pub(crate) fn written_name(&mut self, name: &Text, at: Span, s: &Scope<'_>)
        ensures { self.new ≡ first_from self.old (written_early_errors (scope_of s.now) name.now at) }
    {
        let barred = s.strict && is_strict_name(name.units());
        self.offer_if(barred, EarlyRule::StrictName, at);
        self.identifier(name, at, s);
    }

    #[tactic(auto, using(crate::proofs::Firsts::lists), unfolding(crate::specs::EarlyErrors::free_early_errors))]
    fn free(&mut self, name: &'a Text, at: Span, s: &Scope<'_>)
        ensures { self.new ≡ first_from self.old (free_early_errors (scope_of s.now) name.now at) }
    {
        if is_left_out(name.units()) && !is_among(name.units(), s.bound) {
            self.offer(Finding::LeftOut(name, at));
        }
    }

    /// A name as an expression.
    #[tactic(auto, using(crate::proofs::Firsts::lists), unfolding(crate::specs::EarlyErrors::read_early_errors))]
    pub(crate) fn read_name(&mut self, name: &'a Text, at: Span, s: &Scope<'_>)
        ensures { self.new ≡ first_from self.old (read_early_errors (scope_of s.now) name.now at) }
    {
        self.free(name, at, s);
        self.identifier(name, at, s);
    }

    /// A name that is assigned to, and need not be declared.
    #[tactic(auto, using(crate::proofs::Firsts::lists), unfolding(crate::specs::EarlyErrors::target_early_errors))]
    pub(crate) fn target(&mut self, name: &'a Text, at: Span, s: &Scope<'_>)
        ensures { self.new ≡ first_from self.old (target_early_errors (scope_of s.now) name.now at) }
    {
        self.free(name, at, s);
        self.written_name(name, at, s);
    }

    /// The name in the head of a `for-in` (12.6.4).
    pub(crate) fn for_in_name(&mut self, is_var: bool, name: &'a Text, at: Span, s: &Scope<'_>)
        ensures { self.new ≡ first_from self.old (for_in_early_errors (scope_of s.now) is_var name.now at) }
    {
        if is_var {
            self.written_name(name, at, s);
        } else {
            self.target(name, at, s);
        }
    }

    /// The label of a statement.
    #[tactic(auto, using(crate::proofs::Firsts::lists), unfolding(crate::specs::EarlyErrors::label_early_errors))]
    pub(crate) fn label(&mut self, name: &Text, at: Span, s: &Scope<'_>)
        ensures { self.new ≡ first_from self.old (label_early_errors (scope_of s.now) name.now at) }
    {
        let twice = has_label(name.units(), s.labels);
        self.offer_if(twice, EarlyRule::LabelTwice, at);
        self.identifier(name, at, s);
    }

    /// A `break` with its label.
    #[tactic(auto, using(crate::proofs::Firsts::lists), unfolding(crate::specs::EarlyErrors::break_early_errors))]
    pub(crate) fn break_to(&mut self, label: &Option<Ident>, at: Span, s: &Scope<'_>)
        ensures { self.new ≡ first_from self.old (break_early_errors (scope_of s.now)
            (option_map view_ident label.now) at) }
    {
        match label {
            None => self.offer_if(!s.can_break, EarlyRule::BreakOutside, at),
            Some(label) => {
                let there = has_label(label.text.units(), s.labels);
                self.offer_if(!there, EarlyRule::BreakOutside, at);
                self.identifier(&label.text, label.span, s);
            }
        }
    }

    /// A `continue` with its label.
    #[tactic(auto, using(crate::proofs::Firsts::lists), unfolding(crate::specs::EarlyErrors::continue_early_errors))]
    pub(crate) fn continue_to(&mut self, label: &Option<Ident>, at: Span, s: &Scope<'_>)
        ensures { self.new ≡ first_from self.old (continue_early_errors (scope_of s.now)
            (option_map view_ident label.now) at) }
    {
        match label {
            None => self.offer_if(!s.in_loop, EarlyRule::ContinueOutside, at),
            Some(label) => {
                let there = has_loop_label(label.text.units(), s.labels);
                self.offer_if(!there, EarlyRule::ContinueOutside, at);
                self.identifier(&label.text, label.span, s);
            }
        }
    }

    /// A `return`.
    #[tactic(auto, using(crate::proofs::Firsts::lists), unfolding(crate::specs::EarlyErrors::return_early_errors))]
    pub(crate) fn return_at(&mut self, at: Span, s: &Scope<'_>)
        ensures { self.new ≡ first_from self.old (return_early_errors (scope_of s.now) at) }
    {
        self.offer_if(!s.in_function, EarlyRule::ReturnOutside, at);
    }

    /// A prefix operator with its operand.
    #[tactic(auto, using(crate::proofs::Firsts::lists), unfolding(crate::specs::EarlyErrors::delete_early_errors))]
    pub(crate) fn delete(&mut self, op: UnOp, operand: &Expr, at: Span, s: &Scope<'_>)
        ensures { self.new ≡ first_from self.old (delete_early_errors (scope_of s.now) op
            (view_expression operand.now) at) }
    {
        let deletes = s.strict && is_delete(op) && is_name(operand);
        self.offer_if(deletes, EarlyRule::StrictDelete, at);
    }
}

fn is_delete(op: UnOp) -> bool
    ensures { result ≡ is_delete op }
{
    match op {
        UnOp::Delete => true,
        _ => false,
    }
}
