//! The law on what is given of a change, the contract of a function that does nothing.
ghost use Rattle.record_pool.specs.Laws.{AreGivenInSecond};

/// What is given of bytes that spell a change, in either spelling, is its second spelling.
pub fn changes_are_given_in_the_second_spelling()
    ensures { AreGivenInSecond }
{}
