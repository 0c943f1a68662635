ghost use Rattle.std.specs.Prelude.{◌≡◌};
ghost use Rattle.jl_scope.specs.declared.refusal.ScopeRefusal.TheVariants.{NoMemory};

use crate::rules::EarlyRule;
use jl_text::{Span, Text};
use std::alloc::AllocError;

/// What is wrong with a program, and where.
#[derive(Drop)]
pub enum ScopeRefusal {
    /// An early rule is broken (clause 16).
    Early { rule: EarlyRule, span: Span },
    /// A property of the global object that scripts here don't have is mentioned, and nothing binds the name.
    LeftOut { name: Text, span: Span },
    /// `J$` stands as an identifier or a label.
    ReservedName { span: Span },
    /// No memory was left.
    NoMemory,
}

impl From<AllocError> for ScopeRefusal {
    ghost from_gives = { λ _ e. e ≡ NoMemory };

    fn from(_error: AllocError) -> ScopeRefusal {
        ScopeRefusal::NoMemory
    }
}
