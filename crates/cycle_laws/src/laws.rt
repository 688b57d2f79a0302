//! The laws of cycles in histories, each the contract of a function that does nothing.

ghost use Rattle.cycle_laws.specs.Laws.{EmptyBeginsMarkets, FoldsBeginMarkets, NetsStayAtExecutions, PostingsAreLeast, ExecutionsFollowThePosting};
ghost use Rattle.cycle_laws.specs.Bases.{EmptyIsWritable, FittingIsWritable, FoldsAreWritable, SpellingsStandForBases, WritableCanBeWritten, WritableComesBack, WritableFits};

/// A history of a roster's market may begin in the state before the first command, for a roster of at most 256 members and 64
/// products.
pub fn empty_begins_markets()
    ensures { EmptyBeginsMarkets }
{}

/// It may begin again at its end, where no cycle is open there.
pub fn folds_begin_markets()
    ensures { FoldsBeginMarkets }
{}

/// Where a change of a history executes a plan, every member's position in every product stays, over all live trades,
/// and no product's gross grows.
pub fn nets_stay_at_executions()
    ensures { NetsStayAtExecutions }
{}

/// Each accepted posting has for each product a network of the least gross of all that keep the product's limits and every
/// net position, for the problems that the BEGIN of its version took.
pub fn postings_are_least()
    ensures { PostingsAreLeast }
{}

/// What a change executes is the plan of solutions that were posted in the same version, on the trades that are frozen;
/// it ends and cuts frozen trades alone that nobody holds.
pub fn executions_follow_the_posting()
    ensures { ExecutionsFollowThePosting }
{}

/// The state before the first command can be written as a base, for a roster of at most 256 members and 64 products.
pub fn empty_is_writable()
    ensures { EmptyIsWritable }
{}

/// So can that at the end of a legal history from such a state on, where no cycle is open.
pub fn folds_are_writable()
    ensures { FoldsAreWritable }
{}

/// What is written of it fits the roster.
pub fn writable_fits()
    ensures { WritableFits }
{}

/// It is read as the same base.
pub fn writable_comes_back()
    ensures { WritableComesBack }
{}

/// The state of a base that can be written and fits a roster of at most 256 members and 64 products can be written.
pub fn fitting_is_writable()
    ensures { FittingIsWritable }
{}

/// What is written of a state that can be written as a base meets the condition of `base_codec::encode_base`.
pub fn writable_can_be_written()
    ensures { WritableCanBeWritten }
{}

/// Bytes that spell what is written of such a state, at a small position and after few cycles, stand for it: what they spell
/// fits the roster and is read as the same base.
pub fn spellings_stand_for_bases()
    ensures { SpellingsStandForBases }
{}
