//! What is proved of the size of code.
ghost use Rattle.semantics.specs.Sizes.{BoundIsReached, CodeIsBounded, LengthsAreBounded, SizesAreLengths};

/// The sizes of a term are the lengths of its listing and of its code.
pub fn sizes_are_lengths()
    ensures { SizesAreLengths }
{}

/// A term of at most 512 records gives at most 1,194 instructions, END included.
pub fn code_is_bounded()
    ensures { CodeIsBounded }
{}

/// One term has just 512 records and gives just 1,194 instructions.
pub fn bound_is_reached()
    ensures { BoundIsReached }
{}

/// Every length in the translation of a term of at most 512 records is from 2 to 1,194.
pub fn lengths_are_bounded()
    ensures { LengthsAreBounded }
{}
