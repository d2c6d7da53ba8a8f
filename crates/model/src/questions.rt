// The questions that a call is put. A call that is refused says which of them is answered no.
ghost use Rattle.std.specs.Prelude.{◌≡◌};
ghost use Rattle.model.specs.Numbers.{number_of, answer_number};

// A question, named after what it asks for. Its number in the paper stands in specs/Numbers.
#[derive(Clone, Copy, PartialEq, Eq)]
pub enum Question {
    // Are the four header words in range and the length exact?
    HeaderInRange = 1,
    // Are shelf numbers below K?
    ShelvesBelow,
    // Does each written shelf differ from the other named ones?
    ShelvesDiffer,
    // Are the shelves read sound?
    ShelvesSound,
    // Is k ≤ n?
    BeatWithin,
    // Has the result at most 4,096 beats?
    BeatsFew,
    // Is the list whole notes, in range, in order and without overlap in a lane?
    ListInOrder,
    // Does each result fit W words?
    ResultFits,
    // Is MThd there, its length 6 or more and all inside the file?
    FileHeader,
    // Format 0, one track, division equal to δ?
    FileFormat,
    // Is a complete MTrk reached through complete chunks?
    TrackReached,
    // Are time, status and data legal and inside the track, end of track of length 0 and at its last byte?
    EventLegal,
    // Is the time at most 4,096 × δ?
    TimeWithin,
    // Is a lane silent when a note starts?
    LaneSilent,
    // Does the file fit the output?
    FileFits,
}

impl From<Question> for u32 {
    ghost from_gives = { λ q n. n ≡ number_of q };

    // The question's number in the paper.
    fn from(question: Question) -> u32 {
        question as u32
    }
}

// The number that a call returns: 0, or that of the question that is answered no.
pub fn answer_number(answer: Result<(), Question>) -> u32
    ensures { result ≡ answer_number answer }
{
    answer.err().map_or(0, u32::from)
}
