// Why a call is refused.

ghost use Rattle.std.specs.Prelude.{◌≡◌};
ghost use Rattle.definitions.specs.Refusals.{number_of};

#[derive(Clone, Copy, Debug, PartialEq, Eq)]
pub enum Refusal {
    // A list above its limit, or lists of unlike lengths.
    Misshapen,
    // A number that is not finite or not storable, or a NaN that is no block.
    Unstorable,
    NoClipNumber,
    EqualStarts,
    ThreeEqualKnots,
    UnreadableTemplate,
    // A template's stride, end or offset.
    DisorderedTemplate,
    TooManyClips,
    // Samples that do not ascend, clip ends that do not close their list, a mark that is none.
    BadSamples,
    TimeNotFinite,
    NoSet,
    NoRoom,
    // A set or an order list that a dispatcher cannot take: one set too many, a name that a set has or that is too long, names that do not close
    // their list.
    NotTaken,
}

// The number that a caller gets.
impl From<Refusal> for u8 {
    ghost from_gives = { λ r n. n ≡ number_of r };

    fn from(r: Refusal) -> u8 {
        match r {
            Refusal::Misshapen => 1,
            Refusal::Unstorable => 2,
            Refusal::NoClipNumber => 3,
            Refusal::EqualStarts => 4,
            Refusal::ThreeEqualKnots => 5,
            Refusal::UnreadableTemplate => 6,
            Refusal::DisorderedTemplate => 7,
            Refusal::TooManyClips => 8,
            Refusal::BadSamples => 9,
            Refusal::TimeNotFinite => 10,
            Refusal::NoSet => 20,
            Refusal::NoRoom => 22,
            Refusal::NotTaken => 23,
        }
    }
}
