// Why a call is refused.
ghost use Rattle.std.specs.Prelude.{◌≡◌};
ghost use Rattle.rules.specs.Refusal.{number_of};

use std::error::Error;
use std::fmt;

/// The refusals, in the order of their numbers.
#[derive(Clone, Copy, Debug, PartialEq, Eq, Hash)]
pub enum Refusal {
    ListLength,
    VertexCount,
    NumberTooLarge,
    VertexTwice,
    EdgeTwice,
    VertexUnused,
    FansInList,
    PackingRoom,
    TooManyPlaces,
    TooManyLoops,
    PackTooLong,
    NotFields,
    CountOutOfRange,
    UnpackingRoom,
    EndsEarly,
    NotAllowed,
    ExceedsStated,
    EdgeRule,
    DiffersFromStated,
    FansInModel,
    UnsoundState,
    OrderRoom,
    UnfitPositions,
    NoVolume,
    UnfitNote,
    TooLargeForFurnace,
}

impl Refusal {
    /// All of them, in the order of their numbers.
    pub const ALL: [Refusal; 26] = [
        Refusal::ListLength,
        Refusal::VertexCount,
        Refusal::NumberTooLarge,
        Refusal::VertexTwice,
        Refusal::EdgeTwice,
        Refusal::VertexUnused,
        Refusal::FansInList,
        Refusal::PackingRoom,
        Refusal::TooManyPlaces,
        Refusal::TooManyLoops,
        Refusal::PackTooLong,
        Refusal::NotFields,
        Refusal::CountOutOfRange,
        Refusal::UnpackingRoom,
        Refusal::EndsEarly,
        Refusal::NotAllowed,
        Refusal::ExceedsStated,
        Refusal::EdgeRule,
        Refusal::DiffersFromStated,
        Refusal::FansInModel,
        Refusal::UnsoundState,
        Refusal::OrderRoom,
        Refusal::UnfitPositions,
        Refusal::NoVolume,
        Refusal::UnfitNote,
        Refusal::TooLargeForFurnace,
    ];

    /// Its number.
    pub fn number(self) -> u8
        ensures { result ≡ number_of self }
    {
        self as u8 + 1
    }
}

impl fmt::Display for Refusal {
    fn fmt<W: fmt::Write>(&self, f: &mut fmt::Formatter<W>) -> fmt::Result {
        f.write_str(match self {
            Refusal::ListLength =>
                "the list is empty, has over 24,576 numbers, or not three for each triangle",
            Refusal::VertexCount => "the number of vertices is below 3 or above 4,096",
            Refusal::NumberTooLarge => "a number of the list is not below the number of vertices",
            Refusal::VertexTwice => "a triangle of the list has a vertex twice",
            Refusal::EdgeTwice => "a directed edge occurs twice",
            Refusal::VertexUnused => "a vertex is in no triangle",
            Refusal::FansInList => "a vertex of the list has more than one fan",
            Refusal::PackingRoom =>
                "packing is lent fewer numbering entries than vertices, or fewer than 1,024 place records",
            Refusal::TooManyPlaces => "an operation of the packing would exceed 1,024 places",
            Refusal::TooManyLoops => "an operation of the packing would exceed 100 live loops",
            Refusal::PackTooLong => "the pack buffer is shorter than the pack",
            Refusal::NotFields => "the bytes are not the fields of a pack, each whole and in order",
            Refusal::CountOutOfRange => "a count is out of its range",
            Refusal::UnpackingRoom =>
                "fewer than three triangle entries for each triangle stated or fewer than 1,024 place records are lent",
            Refusal::EndsEarly => "the operations end before the model is complete, or break off",
            Refusal::NotAllowed => "an operation is not allowed",
            Refusal::ExceedsStated => "an operation would exceed a stated count",
            Refusal::EdgeRule =>
                "a new edge joins two vertices that are joined already, or a built triangle has a vertex twice",
            Refusal::DiffersFromStated =>
                "vertices or a peak differ from those stated, a whole byte is left over, or a fill bit is one",
            Refusal::FansInModel => "a vertex of the built model has more than one fan",
            Refusal::UnsoundState =>
                "a building call is lent shorter buffers than 14 asks, or a state that no building comes to",
            Refusal::OrderRoom => "packing is lent fewer order entries than there are triangles",
            Refusal::UnfitPositions =>
                "the positions are not three for each vertex, or one is not from -2,048 to 2,047",
            Refusal::NoVolume =>
                "there is no volume: the pack has no positions, or the model has a rim",
            Refusal::UnfitNote => "the note has no byte or over 64",
            Refusal::TooLargeForFurnace => "over 200 places or over 12 loops are stated",
        })
    }
}

impl Error for Refusal {}
