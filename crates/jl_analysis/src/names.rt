ghost use Rattle.std.specs.Prelude.{◌≡◌, ◌<◌, ◌≢◌, ℕ, Some, IfNone, IfSome, length, map, slice_get};
ghost use Rattle.jl_analysis.specs.Rules.{IsRule, name_at};

/// How many rules there are. Their numbers count from 1.
pub const RULE_COUNT: u32 = 20;

/// The same as a length.
pub(crate) const RULES: usize = RULE_COUNT as usize;

// The names of the rules, in the order of their numbers.
const NAMES: [&str; RULES] = [
    "nan-made",
    "undefined-joined",
    "object-joined",
    "undefined-key",
    "put-on-primitive",
    "wrapped-condition",
    "loose-equal",
    "odd-compare",
    "typeof-text",
    "bits-of-nothing",
    "shadow-write",
    "mixed-new",
    "object-prototype-write",
    "odd-prototype",
    "late-prototype",
    "for-in-array",
    "extra-arguments",
    "wrapper-made",
    "no-radix",
    "global-this",
];

/// The name of the rule with this number.
pub fn rule_name(rule: u32) -> &'static str
    requires { IsRule rule }
    ensures { Some result.now ≡ name_at rule }
{
    entry(&NAMES, rule as usize - 1)
}

/// The number of the rule with this name, or `None` where no rule has the name.
pub fn rule_named(name: &str) -> Option<u32>
    ensures found { IfSome result (λ rule. name_at rule ≡ Some name.now) }
    ensures listed { IfSome result (λ rule. IsRule rule) }
    ensures none { IfNone result ((rule : ℕ) → name_at rule ≢ Some name.now) }
{
    for rule in 1..=RULE_COUNT {
        if rule_name(rule) == name {
            return Some(rule);
        }
    }
    None
}

fn entry(table: &'static [&'static str], at: usize) -> &'static str
    requires { at < length table.now }
    ensures { slice_get (map (λ name. name.now) table.entry.now) at ≡ Some result.now }
{
    table[at]
}
