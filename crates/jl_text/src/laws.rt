// The laws of encodings.
ghost use Rattle.jl_text.specs.Encoding.{Utf8ComesBack, UnitsComeBack};

/// The law that the units of a text in UTF-8 give its bytes back.
pub fn utf8_comes_back()
    ensures { Utf8ComesBack }
{}

/// The law that the bytes of units give these back, where each surrogate has its partner.
pub fn units_come_back()
    ensures { UnitsComeBack }
{}
