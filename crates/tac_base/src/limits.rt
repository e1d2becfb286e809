//! The limits of the game and of its texts, each in one place; code, clauses and definitions cite it. This project defines them all.

/// The number of agents in a game. Agents are numbered from 0.
pub const AGENTS: u8 = 8;

/// The number of callers of an auction: the agents, and then the clock.
pub const CALLERS: u8 = 9;

/// The number of goods in a game. Goods are numbered from 0.
pub const GOODS: u8 = 28;

/// The most calls of an agent in one auction, refused ones included.
pub const AGENT_CALLS: u32 = 1_024;

/// The most calls of the clock in one auction.
pub const CLOCK_CALLS: u32 = 64;

/// The most entries of one auction: eight agents' calls and the clock's.
pub const AUCTION_ENTRIES: u32 = 8_256;

/// The last position of an auction's history, counted from 0.
pub const LAST_POSITION: u32 = 8_255;

/// The most cash readings that an agent can make.
pub const CASH_READINGS: u32 = 1_024;

/// The most cash entries of an agent: a post for each of its calls in 28 auctions, and its readings.
pub const AGENT_CASH_ENTRIES: u32 = 29_696;

/// The most cash entries of the clock: a post for each call of a game's schedule.
pub const CLOCK_CASH_ENTRIES: u32 = 480;

/// The most entries of the cash book: eight agents' and the clock's.
pub const CASH_ENTRIES: u32 = 238_048;

/// The number of ticks in a game. Ticks are numbered from 1.
pub const TICKS: u8 = 54;

/// The last tick at which flights are updated: the one before the last.
pub const UPDATE_TICKS: u8 = 53;

/// The number of draws of a flight in a game file, one for each tick at which it is updated.
pub const FLIGHT_DRAWS: usize = UPDATE_TICKS as usize;

/// The most rooms of a hotel night.
pub const NIGHT_ROOMS: u8 = 64;

/// The most bytes of a game file.
pub const GAME_BYTES: u32 = 1_048_576;

/// The most bytes of a script, a log, an account or a certificate.
pub const TEXT_BYTES: u32 = 67_108_864;

/// The most bytes of a request line, before its line end, and of a reply.
pub const LINE_BYTES: u32 = 512;

/// The most bytes of a short text that is printed: a reply, or a line of a log.
pub const REPLY_TEXT: usize = 640;

/// The most request lines that a session answers, and that a game script has for one agent.
pub const SESSION_LINES: u32 = 65_536;

/// The most bytes that the server reads from a link.
pub const LINK_BYTES: u32 = 67_108_864;

/// The most links that a served game takes.
pub const LINKS: u32 = 64;

/// The most links in a log that is read.
pub const LOG_LINKS: u32 = 255;

/// The most games of one table of standings.
pub const TABLE_GAMES: u8 = 64;

/// The most files that a command reads: a game and a log of each game of a table.
pub const FILE_NAMES: usize = 128;

/// The most bytes of a file's name, for files that report which names were selected.
pub const NAME_BYTES: usize = 1_024;

/// The highest port for a served game; the lowest is 1.
pub const PORT: u16 = 65_535;

/// The longest pace of a served game, in milliseconds per tick; the shortest is 1.
pub const PACE: u16 = 60_000;

/// The highest price of a bid, in dollars; the lowest is 1.
pub const BID_PRICE: u16 = 10_000;

/// The highest price that a board or a reply shows, in dollars: one more than the highest price of a bid, so no bid can offer it.
pub const SHOWN_PRICE: u16 = 10_001;

/// The most points of a bid.
pub const BID_POINTS: u8 = 16;

/// The most units of a bid, bought and sold ones together.
pub const BID_UNITS: u8 = 16;

/// The highest position in a history or in the cash book that a text can name, counted from 0.
pub const POSITION: u32 = 16_777_215;

/// The most trades of one entry: 16 units against each of eight agents.
pub const ENTRY_TRADES: u8 = 128;

/// The most units that stand in an auction: 16 of each of eight agents.
pub const STANDING_UNITS: usize = ENTRY_TRADES as usize;

/// The highest price of a good in a certificate, in dollars: more than eight clients' packages can be worth.
pub const DUAL_PRICE: u16 = 14_001;

/// The most that eight clients' packages are worth to them together, in dollars.
pub const BEST_TOTAL: u32 = 14_000;

/// The greatest holding of a good in an account, and of an agent in a game, in absolute value.
pub const HOLDING: i32 = 200_000;

/// The greatest holding of an agent that a reply shows, in absolute value.
pub const SHOWN_HOLDING: i32 = 1_000_000;

/// The most digits of an amount of cash in a text.
pub const CASH_DIGITS: u8 = 18;

/// The most splits on the way to a leaf of a certificate.
pub const CERTIFICATE_DEPTH: u8 = 32;

/// The most requests in a generated script.
pub const MADE_REQUESTS: u32 = 50_000;
