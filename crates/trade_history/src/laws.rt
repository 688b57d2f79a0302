//! The laws of a history's trades, each the contract of a function that does nothing.

ghost use Rattle.trade_history.specs.Laws.{EmptyIsClosed, TradesAreTheHistorys, AnswersTellExecutions, SearchFindsExecutions, PlansExecuteWhole, OthersChangeOneRow, OwnRowsAreTheHistorys, ExecutionsAreListed, OthersAreNotListed, BegunLimitsStand, TradesFollowAtEachPosition, PositionsAreChanges, VersionsArePostedOnce};
ghost use Rattle.trade_history.specs.Folds.{FoldsGoOn, FoldsAreClosed, FoldsTellTheSame, TradesStayInFolds, ExecutionsStayInFolds, SessionsStayInFolds};

/// The state before the first command can be a history's base.
pub fn empty_is_closed()
    ensures { EmptyIsClosed }
{}

/// The trades of the machine after a legal history, their being frozen aside, are the trades of the history.
pub fn trades_are_the_historys()
    ensures { TradesAreTheHistorys }
{}

/// So they are after each position: those of the machine there are those of the history up to there.
pub fn trades_follow_at_each_position()
    ensures { TradesFollowAtEachPosition }
{}

/// What executes at a position of a history is what executes at the change there.
pub fn positions_are_changes()
    ensures { PositionsAreChanges }
{}

/// Each change of a legal history is answered by the figures of what executes at it, and by no execution's figures
/// where nothing does.
pub fn answers_tell_executions()
    ensures { AnswersTellExecutions }
{}

/// At a change of a legal history a plan executes exactly where the search back from it finds that plan: so at most
/// one executes.
pub fn search_finds_executions()
    ensures { SearchFindsExecutions }
{}

/// Where a plan executes, the history's trades change by the whole plan, and by nothing else.
pub fn plans_execute_whole()
    ensures { PlansExecuteWhole }
{}

/// Where no plan executes, the history's trades change by the command alone.
pub fn others_change_one_row()
    ensures { OthersChangeOneRow }
{}

/// The rows of a member that the machine has, their being frozen aside, are those of the history's trades.
pub fn own_rows_are_the_historys()
    ensures { OwnRowsAreTheHistorys }
{}

/// The executions of a history have one row for each change at which a plan executes, with its position.
pub fn executions_are_listed()
    ensures { ExecutionsAreListed }
{}

/// The executions of a history have no row for a change at which no plan executes.
pub fn others_are_not_listed()
    ensures { OthersAreNotListed }
{}

/// What a version of a cycle began with, its networks and its limits, stands while the version lasts.
pub fn begun_limits_stand()
    ensures { BegunLimitsStand }
{}

/// A version of a cycle is posted once at most in a legal history.
pub fn versions_are_posted_once()
    ensures { VersionsArePostedOnce }
{}

/// Further changes behind the fold of a legal history end at the position and in the state in which they would have ended
/// behind the history, and are as legal.
pub fn folds_go_on()
    ensures { FoldsGoOn }
{}

/// Where no cycle is open at its end, a legal history may begin again there: the laws of trades and executions hold from
/// there on.
pub fn folds_are_closed()
    ensures { FoldsAreClosed }
{}

/// The trades of a history are the same from any fold of it on.
pub fn trades_stay_in_folds()
    ensures { TradesStayInFolds }
{}

/// The executions of a history are those up to a fold of it and those from there on, at the same positions.
pub fn executions_stay_in_folds()
    ensures { ExecutionsStayInFolds }
{}

/// For a desk that was made at a fold or later, what a reply tells behind the fold is what it tells behind the whole history, at
/// the same position; and nothing is told at an earlier one.
pub fn folds_tell_the_same()
    ensures { FoldsTellTheSame }
{}

/// A session that begins at a fold or later is the same, line by line, behind the fold and behind the whole history.
pub fn sessions_stay_in_folds()
    ensures { SessionsStayInFolds }
{}
