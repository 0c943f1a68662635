ghost use Rattle.std.specs.Prelude.{ℕ, List};
ghost use Rattle.jl_analysis.specs.Summary.{Counts};

/// Checkers in a row, with what each found.
pub trait Findings {
    /// The number of each checker's rule.
    ghost rules: { Self → List ℕ };

    /// The number of each checker's rule, with the ids at which it hit and the number of hits there.
    ghost findings: { Self → List (ℕ × Counts) };
}
