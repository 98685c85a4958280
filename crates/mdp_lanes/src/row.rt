//! What a board shows of a slot.

use mdp_quotes::Total;

/// The row of one slot of a board.
#[derive(Clone, Copy, Debug, PartialEq, Eq)]
pub enum Row {
    /// No row was published for the slot, and no jump.
    Never,
    /// Recovery jumped, and no row was published for the slot since.
    Stale,
    /// The first total of each side of the consolidated book, where the side has one, as message `message` of packet
    /// `packet` left it. Packets and messages count from 1.
    Top {
        packet: u32,
        message: u64,
        bid: Option<Total>,
        offer: Option<Total>,
    },
    /// The book was faulty in message `message` of packet `packet`.
    Fault {
        packet: u32,
        message: u64,
    },
}
