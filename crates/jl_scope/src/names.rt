ghost use Rattle.std.specs.Prelude.{◌≡◌, map};
ghost use Rattle.jl_scope.specs.Names.{same_text, among, strict_words, strict_names, hooks_name, arguments_name};
ghost use Rattle.jl_scope.specs.Names.{left_out_names};
ghost use Rattle.jl_scope.specs.Scope.{is_left_out};

use jl_text::is_spelled;

const LEFT_OUT_NAMES: [&[u8]; 12] = [
    b"eval",
    b"Infinity",
    b"Date",
    b"RegExp",
    b"JSON",
    b"parseFloat",
    b"escape",
    b"unescape",
    b"decodeURI",
    b"decodeURIComponent",
    b"encodeURI",
    b"encodeURIComponent",
];

const STRICT_WORDS: [&[u8]; 9] = [
    b"implements",
    b"interface",
    b"let",
    b"package",
    b"private",
    b"protected",
    b"public",
    b"static",
    b"yield",
];

const STRICT_NAMES: [&[u8]; 2] = [b"eval", b"arguments"];

/// Whether two names have the same units.
pub(crate) fn same_text(a: &[u16], b: &[u16]) -> bool
    ensures { result ≡ same_text a.now b.now }
{
    a == b
}

/// Whether a name is one of these.
pub(crate) fn is_among(name: &[u16], mut names: &[&[u16]]) -> bool
    ensures { result ≡ among name.now (map (λ n. n.now) names.entry.now) }
{
    while let [first, rest @ ..] = names {
        if same_text(name, *first) {
            return true;
        }
        names = rest;
    }
    false
}

fn is_one_of(name: &[u16], mut table: &[&[u8]]) -> bool
    ensures { result ≡ among name.now (map (λ n. n.now) table.entry.now) }
{
    while let [first, rest @ ..] = table {
        if is_spelled(name, *first) {
            return true;
        }
        table = rest;
    }
    false
}

/// Whether it is a property of the global object that scripts here don't have.
#[tactic(auto, unfolding(crate::specs::Scope::is_left_out, crate::specs::Names::left_out_names))]
pub(crate) fn is_left_out(name: &[u16]) -> bool
    ensures { result ≡ is_left_out name.now }
{
    is_one_of(name, &LEFT_OUT_NAMES)
}

/// Whether strict code reserves it (7.6.1.2).
#[tactic(auto, unfolding(crate::specs::Names::strict_words))]
pub(crate) fn is_strict_word(name: &[u16]) -> bool
    ensures { result ≡ among name.now strict_words }
{
    is_one_of(name, &STRICT_WORDS)
}

/// Whether strict code doesn't bind, assign or update it.
#[tactic(auto, unfolding(crate::specs::Names::strict_names))]
pub(crate) fn is_strict_name(name: &[u16]) -> bool
    ensures { result ≡ among name.now strict_names }
{
    is_one_of(name, &STRICT_NAMES)
}

/// Whether it is `J$`.
#[tactic(auto, unfolding(crate::specs::Names::hooks_name))]
pub(crate) fn is_hooks_name(name: &[u16]) -> bool
    ensures { result ≡ same_text name.now hooks_name }
{
    is_spelled(name, b"J$")
}

/// Whether it is `arguments`.
#[tactic(auto, unfolding(crate::specs::Names::arguments_name))]
pub(crate) fn is_arguments(name: &[u16]) -> bool
    ensures { result ≡ same_text arguments_name name.now }
{
    is_spelled(name, b"arguments")
}
