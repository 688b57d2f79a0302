//! The limits of the service, each once: definitions, clauses and code cite them by name.

/// The most bytes of a name.
pub const MOST_NAME: usize = 16;

/// The most members of a roster, of a network and of limits, dealers and customers together.
pub const MOST_MEMBERS: u16 = 256;

/// The most dealers among the members of a roster.
pub const MOST_DEALERS: usize = 64;

/// The most products of a roster, and so the most networks of a market.
pub const MOST_PRODUCTS: usize = 64;

/// The most amount of one trade, in the contract's currency unit.
pub const MOST_TRADE_AMOUNT: u64 = 1_000_000_000_000_000;

/// The most gross notional of a product, and so of any amount, floor or ceiling, in the contract's currency unit.
pub const MOST_GROSS: u64 = 1_000_000_000_000_000_000;

/// The largest number on a line, in a proposal, or of a generated market.
pub const MOST_NUMBER: u64 = 1_000_000_000_000_000_000;

/// The most trades that members submit to one market.
pub const MOST_SUBMITTED: u64 = 100_000;

/// The most trades of a trade file.
pub const MOST_FILE_TRADES: usize = 100_000;

/// The most rows and potentials, counted together, of a session's draft.
pub const MOST_DRAFT: u32 = 100_000;

/// The most bytes of a line before its line feed, and of a reply's line.
pub const MOST_LINE: usize = 4096;

/// The most bytes of one session's input.
pub const MOST_INPUT: usize = 1_073_741_824;

/// The most bytes of a roster file, a trade file and a proposal, each.
pub const MOST_FILE: usize = 67_108_864;

/// The most bytes of a journal.
pub const MOST_JOURNAL: u64 = 268_435_456;

/// The most a potential may be above or below 0, in units of gross per unit moved.
pub const MOST_POTENTIAL: u32 = 1_000_000;

/// The most workers that solve problems beside one another.
pub const MOST_WORKERS: u32 = 64;

/// The most seats of a service.
pub const MOST_SEATS: u32 = 64;

/// The most connections that each seat of a service serves.
pub const MOST_CONNECTIONS: u64 = 1_000_000;
