ghost use Rattle.std.specs.Prelude.{◌≡◌, ◌<◌, ◌^◌};
ghost use Rattle.turn_lock.specs.BoardWord.{IsSmall, packed, unpacked};

use tac_base::Board;

/// Packs the board into one word, so that a single swap publishes it.
pub(crate) fn pack(board: &Board) -> u64
    requires { IsSmall board.now }
    ensures { result ≡ packed board.now }
{
    let closed = if board.closed { 1u64 << 52 } else { 0 };
    let count = u64::from(board.count);
    let bid = u64::from(board.bid);
    let ask = u64::from(board.ask);
    count + bid * (1 << 24) + ask * (1 << 38) + closed
}

/// Unpacks the board from a word.
pub(crate) fn unpack(word: u64) -> Board
    ensures { result ≡ unpacked word }
{
    Board {
        count: (word % (1 << 24)) as u32,
        bid: (word / (1 << 24) % (1 << 14)) as u16,
        ask: (word / (1 << 38) % (1 << 14)) as u16,
        closed: word / (1 << 52) % 2 == 1,
    }
}
