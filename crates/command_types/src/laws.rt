//! The laws of replies and of lines, each the contract of a function that does nothing.

ghost use Rattle.command_types.specs.CutLines.{CutLinesJoin};
ghost use Rattle.command_types.specs.Laws.{ToldCasesExclude};

/// Of the four cases by which a reply is right at its position no two hold together.
pub fn told_cases_exclude()
    ensures { ToldCasesExclude }
{}

/// Each byte of an input stands in one line, or is its line feed, or stands behind the last line feed, in their order.
pub fn cut_lines_join()
    ensures { CutLinesJoin }
{}
