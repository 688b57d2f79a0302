//! The laws of a proposal's text, each the contract of a function that does nothing.

ghost use Rattle.dual_certificate.specs.Laws.{WhatIsWrittenReadsBack};
ghost use Rattle.dual_certificate.specs.PartsText.{WhatIsReadIsItsText, TheirTextIsRead, WhatIsWrittenIsItsText};

/// What is written for networks and solutions of a roster is read as exactly these solutions, with the figures of the
/// networks.
pub fn what_is_written_reads_back()
    ensures { WhatIsWrittenReadsBack }
{}

/// What is read as parts is exactly their text, to its last byte, and the text of parts over a roster's members is read as
/// these. So no two texts are read as the same parts. What is written for a network and a solution of each product is the text of
/// their parts.
pub fn what_is_read_is_its_text()
    ensures read { WhatIsReadIsItsText }
    ensures back { TheirTextIsRead }
    ensures written { WhatIsWrittenIsItsText }
{}
