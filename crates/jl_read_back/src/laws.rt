//! Laws over the definitions; each is the contract of a function that does nothing but call the laws that it rests on.
ghost use Rattle.jl_read_back.specs.EarlyErrors.{FirstIsReservedName, WovenKeepsRules};
ghost use Rattle.jl_read_back.specs.Laws.{WovenBytesAreBounded, WovenHeight, WovenIsWellFormed, WovenReadsBack};
ghost use Rattle.jl_read_back.specs.Laws.{WovenScriptIsBounded, WovenScriptIsSmall, WovenTextIsBounded};
ghost use Rattle.jl_read_back.specs.Laws.{WovenUnitsAreSmall};

use jl_op::laws::map_has_each_id;
use jl_print::laws::{printed_reads_back, read_is_well_formed, text_is_paired};
use jl_simulation::laws::few_ids;
use jl_text::Span;
use jl_token::laws::few_tokens;

/// The woven script of a well formed program whose ids are numbers of a script is well formed, whatever kinds are
/// chosen and wherever its nodes stand, so that its canonical text reads back.
pub fn woven_is_well_formed<S, T>()
    ensures { WovenIsWellFormed S T }
{}

/// The woven script is at most three times as high as the script, and 4.
pub fn woven_height<S, T>()
    ensures { WovenHeight S T }
{}

/// The canonical text of the woven script reads back as the woven script, within every limit on height that is three
/// times that of the script, and 4; and each surrogate of the text has its partner, so that it comes back from its
/// UTF-8. So it is of every program that is read of a text with fewer than 2^30 - 1 units.
pub fn woven_reads_back()
    ensures { WovenReadsBack }
{
    printed_reads_back();
    text_is_paired();
    read_is_well_formed();
    few_tokens();
    map_has_each_id::<Span>();
    few_ids();
}

/// The canonical text of the woven script has at most 64 units for each unit of the text that the program is read of,
/// and 64: so it is of every program that is read of a text with fewer than 2^30 - 1 units, whatever kinds are chosen.
pub fn woven_text_is_bounded()
    ensures { WovenTextIsBounded }
{
    read_is_well_formed();
    few_tokens();
    map_has_each_id::<Span>();
    few_ids();
}

/// In UTF-8 the canonical text of the woven script takes at most 64 bytes for each unit of the text that the program is
/// read of, and 64; and of a script in UTF-8 at most 64 bytes for each of its bytes, and 64. So it is of every program
/// that is read of a text with fewer than 2^30 - 1 units, or of as few bytes, whatever kinds are chosen.
pub fn woven_bytes_are_bounded()
    ensures text { WovenBytesAreBounded }
    ensures script { WovenScriptIsBounded }
{
    read_is_well_formed();
    few_tokens();
    map_has_each_id::<Span>();
    few_ids();
}

/// The canonical text of the woven script has only units of UTF-16, below 2^16, where the text that the program is read
/// of has no others; and so of every script in UTF-8. So it is of every program that is read of a text with fewer than
/// 2^30 - 1 units, or of as few bytes, whatever kinds are chosen.
pub fn woven_units_are_small()
    ensures text { WovenUnitsAreSmall }
    ensures script { WovenScriptIsSmall }
{
    read_is_well_formed();
    few_tokens();
    map_has_each_id::<Span>();
    few_ids();
}

/// The woven script of a program without early errors breaks no rule, and mentions no left-out name that nothing binds,
/// wherever its nodes stand: what is wrong with it is the name of the hooks and nothing else. So that is what is found
/// first.
pub fn woven_keeps_rules()
    ensures rules { WovenKeepsRules }
    ensures first { FirstIsReservedName }
{}
