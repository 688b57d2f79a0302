//! The laws of PROPOSE and of a script's text, each the contract of a function that does nothing.

ghost use Rattle.proposal_laws.specs.Laws.{ProposalsAreNeverBad, ProposalsAreOvertaken, ProposalsAloneStand, ScriptsStandAlone, OthersOvertake};
ghost use Rattle.proposal_laws.specs.Texts.{ScriptTextsAreOne};

/// A PROPOSE is never refused for a bad certificate.
pub fn proposals_are_never_bad()
    ensures { ProposalsAreNeverBad }
{}

/// Once its version was begun, a PROPOSE is refused for its cycle, its phase or its version only at a later position: it
/// was overtaken.
pub fn proposals_are_overtaken()
    ensures { ProposalsAreOvertaken }
{}

/// No PROPOSE is overtaken whose reply stands at the position before the line and the line's own changes.
pub fn proposals_alone_stand()
    ensures { ProposalsAloneStand }
{}

/// In a history that has, from the position before a talk on, no changes but the talk's, as a script's has, each line's reply
/// stands so, and no PROPOSE is overtaken.
pub fn scripts_stand_alone()
    ensures { ScriptsStandAlone }
{}

/// In a session a PROPOSE is overtaken only where a change of another seat stands between the reply to its BEGIN and its
/// own.
pub fn others_overtake()
    ensures { OthersOvertake }
{}

/// Behind one history the same lines, asked at one moment, have one text, and the same changes come of them, where these are all that
/// came, no line is a PROPOSE, and no reply tells a full journal, a stop, a fault of the disk or want of memory.
pub fn script_texts_are_one()
    ensures { ScriptTextsAreOne }
{}
