ghost use Rattle.std.specs.Prelude.{◌≡◌};
ghost use Rattle.jl_scope.specs.Rules.{rule_name, rule_number};

/// A rule of edition 5.1 whose early error is an error before a program runs (clause 16).
#[derive(Clone, Copy, PartialEq, Eq, Debug)]
pub enum EarlyRule {
    /// A `return` outside any function (12.9).
    ReturnOutside,
    /// A `break` outside any loop or `switch`, or with a label that isn't round it (12.8).
    BreakOutside,
    /// A `continue` outside any loop, or with a label that isn't one of a loop round it (12.7).
    ContinueOutside,
    /// A label inside a statement with the same label (12.12).
    LabelTwice,
    /// A key of an object literal as value and as accessor, or for two getters or two setters (11.1.5).
    KeyClash,
    /// `eval` or `arguments` bound, assigned or updated in strict code.
    StrictName,
    /// A word that strict code reserves as an identifier there (7.6.1.2).
    StrictWord,
    /// Two parameters of one name in a strict function (13.1).
    StrictParam,
    /// Two values under one key of an object literal in strict code (11.1.5).
    StrictKey,
    /// `delete` of a name in strict code (11.4.1).
    StrictDelete,
}

impl EarlyRule {
    /// The rule's name in a refusal, as `return-outside`.
    pub fn name(self) -> &'static str
        ensures { result.now ≡ rule_name self }
    {
        match self {
            EarlyRule::ReturnOutside => "return-outside",
            EarlyRule::BreakOutside => "break-outside",
            EarlyRule::ContinueOutside => "continue-outside",
            EarlyRule::LabelTwice => "label-twice",
            EarlyRule::KeyClash => "key-clash",
            EarlyRule::StrictName => "strict-name",
            EarlyRule::StrictWord => "strict-word",
            EarlyRule::StrictParam => "strict-param",
            EarlyRule::StrictKey => "strict-key",
            EarlyRule::StrictDelete => "strict-delete",
        }
    }

    /// The rule's place among the rules, from 1.
    pub(crate) fn number(self) -> u32
        ensures { result ≡ rule_number self }
    {
        match self {
            EarlyRule::ReturnOutside => 1,
            EarlyRule::BreakOutside => 2,
            EarlyRule::ContinueOutside => 3,
            EarlyRule::LabelTwice => 4,
            EarlyRule::KeyClash => 5,
            EarlyRule::StrictName => 6,
            EarlyRule::StrictWord => 7,
            EarlyRule::StrictParam => 8,
            EarlyRule::StrictKey => 9,
            EarlyRule::StrictDelete => 10,
        }
    }
}
