//! What holds of each mappings text.
ghost use Rattle.jl_srcmap.specs.Laws.{BadPlaceIsUnique, DigitsAreFewest, NeverBoth, ReadOrBad, ReadingsAreUnique};
ghost use Rattle.jl_srcmap.specs.Laws.{WrittenReadsBack};

/// A mappings text is read in one way at most.
pub fn readings_are_unique()
    ensures { ReadingsAreUnique }
{}

/// Each text is read as segments, or has a first piece that is no segment.
pub fn read_or_bad()
    ensures { ReadOrBad }
{}

/// No text is both.
pub fn never_both()
    ensures { NeverBoth }
{}

/// A text has one such place at most.
pub fn bad_place_is_unique()
    ensures { BadPlaceIsUnique }
{}

/// What is written for segments whose lines don't fall is read as these segments.
pub fn written_reads_back()
    ensures { WrittenReadsBack }
{}

/// The digits that are written for a quantity make it, and no fewer do.
pub fn digits_are_fewest()
    ensures { DigitsAreFewest }
{}
