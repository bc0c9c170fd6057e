#![tactic(auto)]

ghost use Rattle.std.specs.Prelude.{◌≡◌, Some};
ghost use Rattle.fault.specs.Numbers.{number_of};
ghost use Rattle.fault.specs.declared.Layer.{Layer};
ghost use Rattle.fault.specs.Words.{layer_words, fault_words};

use std::error::Error;
use std::fmt;

// What spoils a file as bytes.
#[derive(Clone, Copy, PartialEq, Eq, Debug)]
pub enum FileCause {
    // A command or its operands are due, and the file has ended.
    Ends,
    // The command is not allowed here.
    NotAllowed,
    // An operand is out of range.
    OutOfRange,
    // A line has 32 acts already.
    LineFull,
    // Bytes stand behind the last command.
    GoesOn,
}

// What keeps lines from being a chart.
#[derive(Clone, Copy, PartialEq, Eq, Debug)]
pub enum ChartCause {
    // A message is sent more or less often than it is received.
    NotPaired,
    // No playing order holds all acts.
    NotPlayable,
}

// What keeps a channel from carrying an act.
#[derive(Clone, Copy, PartialEq, Eq, Debug)]
pub enum ChannelCause {
    // The channel does not grant the act.
    Denied,
}

// What keeps a call from being granted.
#[derive(Clone, Copy, PartialEq, Eq, Debug)]
pub enum BookCause {
    // A play is on.
    InPlay,
    // The id is above 7.
    IdAbove,
    // The id names a held chart already.
    IdTaken,
    // A held chart has another number of parties.
    OtherParties,
    // A held chart is equal.
    EqualChart,
    // The chart has no conversation over the channel.
    NoConversation,
    // The id names no held chart.
    IdFree,
    // No chart is held.
    NothingHeld,
    // There are more tuples of views than a search may go over, or than the cells have room for.
    TooManyTuples,
    // The output is too short.
    OutputShort,
    // No judge of kind 0 stands.
    NoVerdict,
    // No play is on.
    AtRest,
    // An operand is out of range.
    OperandOutOfRange,
    // The party's acts and this one make no view.
    NoView,
    // The play is not at an end.
    NotAtEnd,
}

// What keeps a session from going on.
#[derive(Clone, Copy, PartialEq, Eq, Debug)]
pub enum SessionCause {
    // No command has this letter.
    UnknownLetter,
    // The session ends inside a command.
    CutShort,
}

// The layer that found a fault, with that layer's own cause.
#[derive(Clone, Copy, PartialEq, Eq, Debug)]
pub enum Layer {
    File(FileCause),
    Chart(ChartCause),
    Channel(ChannelCause),
    Book(BookCause),
    Session(SessionCause),
}

// A layer takes its own causes.
impl From<FileCause> for Layer {
    ghost from_gives = { λ cause layer. layer ≡ Layer.File cause };

    fn from(cause: FileCause) -> Layer {
        Layer::File(cause)
    }
}

impl From<ChartCause> for Layer {
    ghost from_gives = { λ cause layer. layer ≡ Layer.Chart cause };

    fn from(cause: ChartCause) -> Layer {
        Layer::Chart(cause)
    }
}

impl From<ChannelCause> for Layer {
    ghost from_gives = { λ cause layer. layer ≡ Layer.Channel cause };

    fn from(cause: ChannelCause) -> Layer {
        Layer::Channel(cause)
    }
}

impl From<BookCause> for Layer {
    ghost from_gives = { λ cause layer. layer ≡ Layer.Book cause };

    fn from(cause: BookCause) -> Layer {
        Layer::Book(cause)
    }
}

impl From<SessionCause> for Layer {
    ghost from_gives = { λ cause layer. layer ≡ Layer.Session cause };

    fn from(cause: SessionCause) -> Layer {
        Layer::Session(cause)
    }
}

// A refusal: the layer that found it, and the place that it found it at.
#[derive(Clone, Copy, PartialEq, Eq, Debug)]
pub struct Fault {
    pub layer: Layer,
    pub place: u64,
}

impl Fault {
    // The fault that a layer found at a place.
    pub fn new<C: Into<Layer>>(cause: C, place: usize) -> Fault
        ensures layer { C.converts cause result.layer }
        ensures place { result.place ≡ place }
    {
        Fault {
            layer: cause.into(),
            place: place as u64,
        }
    }

    // The number by which the refusal is known.
    pub fn number(self) -> u8
        ensures { result ≡ number_of self.layer }
    {
        match self.layer {
            Layer::File(FileCause::Ends) => 1,
            Layer::File(FileCause::NotAllowed) => 2,
            Layer::File(FileCause::OutOfRange) => 3,
            Layer::File(FileCause::LineFull) => 4,
            Layer::File(FileCause::GoesOn) => 5,
            Layer::Chart(ChartCause::NotPaired) => 6,
            Layer::Chart(ChartCause::NotPlayable) => 7,
            Layer::Book(BookCause::InPlay) => 8,
            Layer::Book(BookCause::IdAbove) => 9,
            Layer::Book(BookCause::IdTaken) => 10,
            Layer::Book(BookCause::OtherParties) => 11,
            Layer::Book(BookCause::EqualChart) => 12,
            Layer::Book(BookCause::NoConversation) => 13,
            Layer::Book(BookCause::IdFree) => 14,
            Layer::Book(BookCause::NothingHeld) => 15,
            Layer::Book(BookCause::TooManyTuples) => 16,
            Layer::Book(BookCause::OutputShort) => 17,
            Layer::Book(BookCause::NoVerdict) => 18,
            Layer::Book(BookCause::AtRest) => 19,
            Layer::Book(BookCause::OperandOutOfRange) => 20,
            Layer::Book(BookCause::NoView) => 21,
            Layer::Book(BookCause::NotAtEnd) => 23,
            Layer::Channel(ChannelCause::Denied) => 22,
            Layer::Session(SessionCause::UnknownLetter) => 24,
            Layer::Session(SessionCause::CutShort) => 25,
        }
    }
}

// What the layer found, in words.
impl fmt::Display for Layer {
    ghost output = { λ layer. Some (layer_words layer) };

    fn fmt<W: fmt::Write>(&self, f: &mut fmt::Formatter<W>) -> fmt::Result {
        f.write_str(match self {
            Layer::File(FileCause::Ends) => "the file ends where more is due",
            Layer::File(FileCause::NotAllowed) => "this command is not allowed here",
            Layer::File(FileCause::OutOfRange) => "this operand is out of range",
            Layer::File(FileCause::LineFull) => "this would be the 33rd act of its line",
            Layer::File(FileCause::GoesOn) => "the chart is complete, and bytes follow",
            Layer::Chart(ChartCause::NotPaired) =>
                "a message is not sent as often as it is received",
            Layer::Chart(ChartCause::NotPlayable) => "no playing order holds all acts",
            Layer::Channel(ChannelCause::Denied) => "the channel does not grant the act",
            Layer::Book(BookCause::InPlay) => "a play is on",
            Layer::Book(BookCause::IdAbove) => "the id is above 7",
            Layer::Book(BookCause::IdTaken) => "the id names a held chart",
            Layer::Book(BookCause::OtherParties) => "a held chart has another number of parties",
            Layer::Book(BookCause::EqualChart) => "an equal chart is held",
            Layer::Book(BookCause::NoConversation) =>
                "the chart has no conversation over the channel",
            Layer::Book(BookCause::IdFree) => "the id names no held chart",
            Layer::Book(BookCause::NothingHeld) => "no chart is held",
            Layer::Book(BookCause::TooManyTuples) => "there are too many tuples of views",
            Layer::Book(BookCause::OutputShort) => "the output is too short",
            Layer::Book(BookCause::NoVerdict) => "no judge of kind 0 stands",
            Layer::Book(BookCause::AtRest) => "no play is on",
            Layer::Book(BookCause::OperandOutOfRange) => "an operand is out of range",
            Layer::Book(BookCause::NoView) => "the party's acts make no view",
            Layer::Book(BookCause::NotAtEnd) => "the play is not at an end",
            Layer::Session(SessionCause::UnknownLetter) => "no command has this letter",
            Layer::Session(SessionCause::CutShort) => "the session ends inside a command",
        })
    }
}

// The refusal in words: its number, its place, and what was found.
impl fmt::Display for Fault {
    ghost output = { λ fault. Some (fault_words fault) };

    fn fmt<W: fmt::Write>(&self, f: &mut fmt::Formatter<W>) -> fmt::Result {
        let number = self.number();
        let place = self.place;
        let found = self.layer;
        write!(f, "refused with {number} at {place}: {found}")
    }
}

impl Error for Fault {}
