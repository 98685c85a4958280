//! Why a datagram is refused.

ghost use Rattle.std.specs.Prelude.{◌≡◌};

/// The first fault of a datagram in reading order, by the number and the name that are printed.
#[derive(Clone, Copy, Debug, PartialEq, Eq)]
pub enum Refusal {
    /// The datagram has fewer than the 12 bytes of a packet header.
    TooShort,
    /// The packet sequence number is 0 on an incremental feed, whose numbers start at 1.
    NumberZero,
    /// One byte is left where a message begins, which is half of a message size.
    SizeCut,
    /// The message size is below the 10 bytes of itself and the SBE header.
    SizeSmall,
    /// The message size is greater than the bytes that are left.
    SizePast,
    /// The schema id is not 1.
    Schema,
    /// The root block is shorter than the template's fields.
    BlockShort,
    /// The root block is longer than the message's body.
    BlockPast,
    /// Fewer than the 3 bytes of a group's dimension stand after the root block.
    GroupCut,
    /// A group has entries, and they are shorter than the template's fields.
    GroupShort,
    /// The entries of a group are longer than the bytes left in the message.
    GroupPast,
    /// The update action is neither new, nor change, nor delete.
    Action,
    /// The entry type of an incremental entry is not one of the four book types.
    EntryType,
    /// The level is outside the range of its entry type.
    Level,
    /// The price is null where a level needs one.
    Price,
    /// The size is null or negative where a level needs one.
    Size,
    /// A channel reset, which starts a new numbering.
    ChannelReset,
    /// The levels of a snapshot's side are not 1 to n, each once.
    SnapshotLevels,
}

impl Refusal {
    ghost use Rattle.mdp_sbe.specs.Refusal.{refusal_number, refusal_name};

    /// Returns the number that an `X` line prints, from 1 to 18.
    pub fn number(self) -> u8
        ensures { result ≡ refusal_number self }
    {
        match self {
            Refusal::TooShort => 1,
            Refusal::NumberZero => 2,
            Refusal::SizeCut => 3,
            Refusal::SizeSmall => 4,
            Refusal::SizePast => 5,
            Refusal::Schema => 6,
            Refusal::BlockShort => 7,
            Refusal::BlockPast => 8,
            Refusal::GroupCut => 9,
            Refusal::GroupShort => 10,
            Refusal::GroupPast => 11,
            Refusal::Action => 12,
            Refusal::EntryType => 13,
            Refusal::Level => 14,
            Refusal::Price => 15,
            Refusal::Size => 16,
            Refusal::ChannelReset => 17,
            Refusal::SnapshotLevels => 18,
        }
    }

    /// Returns the name that an `X` line prints, in ASCII letters.
    pub fn name(self) -> &'static str
        ensures { result.now ≡ refusal_name self }
    {
        match self {
            Refusal::TooShort => "TooShort",
            Refusal::NumberZero => "NumberZero",
            Refusal::SizeCut => "SizeCut",
            Refusal::SizeSmall => "SizeSmall",
            Refusal::SizePast => "SizePast",
            Refusal::Schema => "Schema",
            Refusal::BlockShort => "BlockShort",
            Refusal::BlockPast => "BlockPast",
            Refusal::GroupCut => "GroupCut",
            Refusal::GroupShort => "GroupShort",
            Refusal::GroupPast => "GroupPast",
            Refusal::Action => "Action",
            Refusal::EntryType => "EntryType",
            Refusal::Level => "Level",
            Refusal::Price => "Price",
            Refusal::Size => "Size",
            Refusal::ChannelReset => "ChannelReset",
            Refusal::SnapshotLevels => "SnapshotLevels",
        }
    }
}
