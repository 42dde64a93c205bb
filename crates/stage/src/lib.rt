// The machine's types: the two parts of a module, what a step leaves, and what a call says; and what the begin calls do to a part.
//
// 01, "The stage table" and "What a call says". Of each module, what only the module itself writes (`Private`) stands apart from what others
// may touch (`Shared`). The stage table itself, in code, is the crate `row`.
#![tactic(auto)]

ghost use Rattle.std.specs.Prelude.{◌≡◌};
ghost use Rattle.stage.specs.Answers.{answer_of, admission, log_length, refusal_number};
ghost use Rattle.stage.specs.Rows.{goes, with_own, with_priority};

use link::Link;

// Stages are numbered from 0 to this. 01 has the step match on the number, and the table says of every number what is done there.
pub const LAST: u8 = 19;

// What only the module itself writes.
#[derive(Clone, Copy, Debug, PartialEq, Eq)]
pub struct Private {
    pub stage: u8,
    pub own: u8,
    pub prev: u8,
    pub w: Link,
    pub s: u8,
}

// What other modules may touch. Locked is a byte: the table asks whether it is 0, of any.
#[derive(Clone, Copy, Debug, PartialEq, Eq)]
pub struct Shared {
    pub link: Link,
    pub priority: u8,
    pub locked: u8,
}

// What happened, with the admitted module and the length of the log taken.
#[derive(Clone, Copy, Debug, PartialEq, Eq)]
pub enum Event {
    Done,
    Waiting,
    Admitted(u8),
    Joined,
    Left,
    Finished,
    Taken(u16),
    Nobody,
}

// An accepted call's answer: 01's number for what happened, and what happened. 01 asks for this struct.
#[derive(Clone, Copy, Debug, PartialEq, Eq)]
pub struct Answer {
    pub number: u8,
    pub event: Event,
}

// What a call is refused for, by the numbers of 01 and 02.
#[derive(Clone, Copy, Debug, PartialEq, Eq)]
pub enum Refusal {
    // The image is unsound.
    Unsound = 1,
    // The module number is 0 or above n.
    NoSuchModule = 2,
    // The priority is not 1 to 254.
    WrongPriority = 3,
    // The module is at a stage at which the call is not made.
    WrongStage = 4,
    // The step would admit, and the log holds 256.
    LogFull = 5,
    // The buffer for the log is shorter than the log length.
    ShortLogBuffer = 6,
    // n is not 1 to 64.
    WrongNumberOfModules = 7,
    // The buffer for the image is too short.
    ShortBuffer = 8,
    // A line of the program `turns` is malformed.
    Malformed = 9,
    // The turn marker is not 1 to n.
    WrongMarker = 10,
}

// What a call says: an answer, or why it is refused.
pub type Reply = Result<Answer, Refusal>;

// What a step leaves: the module's private part, the shared part that it looked at, the lock word, and the answer.
#[derive(Clone, Copy, Debug, PartialEq, Eq)]
pub struct Stepped {
    pub me: Private,
    pub its: Shared,
    pub lock: u8,
    pub answer: Answer,
}

impl Answer {
    pub const DONE: Answer = Answer {
        number: 0,
        event: Event::Done,
    };

    pub const WAITING: Answer = Answer {
        number: 1,
        event: Event::Waiting,
    };

    pub const JOINED: Answer = Answer {
        number: 3,
        event: Event::Joined,
    };

    pub const LEFT: Answer = Answer {
        number: 4,
        event: Event::Left,
    };

    pub const FINISHED: Answer = Answer {
        number: 5,
        event: Event::Finished,
    };

    pub const NOBODY: Answer = Answer {
        number: 9,
        event: Event::Nobody,
    };

    pub fn admitted(p: u8) -> Answer
        ensures { result ≡ answer_of (Event.Admitted p) }
    {
        Answer {
            number: 2,
            event: Event::Admitted(p),
        }
    }

    pub fn taken(length: u16) -> Answer
        ensures { result ≡ answer_of (Event.Taken length) }
    {
        Answer {
            number: 0,
            event: Event::Taken(length),
        }
    }
}

impl Event {
    // The module that the event admits, if it is an admission.
    pub fn admission(self) -> Option<u8>
        ensures { result ≡ admission self }
    {
        match self {
            Event::Admitted(p) => Some(p),
            _ => None,
        }
    }

    // The length of the log that the event takes, if it takes one.
    pub fn log_length(self) -> Option<u16>
        ensures { result ≡ log_length self }
    {
        match self {
            Event::Taken(length) => Some(length),
            _ => None,
        }
    }
}

impl Refusal {
    // Its number.
    pub fn number(self) -> u8
        ensures { result ≡ refusal_number self }
    {
        self as u8
    }
}

// Begin acquisition: the given priority becomes the module's own; stage 1.
pub fn begun_acquisition(mut me: Private, priority: u8) -> Private
    ensures { result ≡ goes 1 (with_own priority me) }
{
    me.own = priority;
    me.stage = 1;
    me
}

// Begin acquisition: the given priority goes into the record.
pub fn with_priority(mut its: Shared, priority: u8) -> Shared
    ensures { result ≡ with_priority priority its }
{
    its.priority = priority;
    its
}

// Begin release: stage 14.
pub fn begun_release(mut me: Private) -> Private
    ensures { result ≡ goes 14 me }
{
    me.stage = 14;
    me
}
