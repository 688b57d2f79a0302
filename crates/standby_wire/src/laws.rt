//! What is read of replies.
ghost use Rattle.standby_wire.specs.Laws.{OnlyTheSameIsRead, ReadingStays, WritingIsRead, RefusalsAreRead};

/// What was read, or is bad, stays so, however the input goes on; and what is read is a front of the input.
pub fn reading_stays()
    ensures { ReadingStays }
{}

/// What a primary writes is read, whatever comes behind it.
pub fn writing_is_read()
    ensures { WritingIsRead }
{}

/// Of what a primary writes behind a NEXT, only the entry with the same bytes is read as the one that was told before.
pub fn only_the_same_is_read()
    ensures { OnlyTheSameIsRead }
{}

/// What a primary refuses a HELLO or a NEXT with is read as its number.
pub fn refusals_are_read()
    ensures { RefusalsAreRead }
{}
