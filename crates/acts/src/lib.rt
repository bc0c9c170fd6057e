#![tactic(auto)]

ghost use Rattle.std.specs.Prelude.{◌≡◌, ◌<◌, true, ◌↔◌, Some};
ghost use Rattle.acts.specs.Acts.{message_of, send_of, receive_of, byte_of_letter, Known, rank_of};
ghost use Rattle.acts.specs.Words.{words_of};
ghost use Rattle.acts.specs.Order.{Sooner, OrderIsStrict};
ghost use Rattle.acts.specs.Theorems.{PartsDecide, Completion, StuckIsLongest, PlayingOrders, RunIsLongest};

use std::fmt;

// What a party does with a message.
#[derive(Clone, Copy, PartialEq, Eq, PartialOrd, Ord, Debug)]
pub enum Letter {
    Send,
    Receive,
}

// The letter's byte in a file.
impl From<Letter> for u8 {
    ghost from_gives = { λ letter byte. byte ≡ byte_of_letter letter };

    fn from(letter: Letter) -> u8 {
        match letter {
            Letter::Send => b'S',
            Letter::Receive => b'R',
        }
    }
}

// A party sends a message to its peer, or receives one from it. Acts are ordered by party, then send
// before receive, then peer, then name, which is the order of these fields.
#[derive(Clone, Copy, PartialEq, Eq, PartialOrd, Ord, Debug)]
pub struct Act {
    pub party: u8,
    pub letter: Letter,
    pub peer: u8,
    pub name: u8,
}

// What a send hands over and a receive takes.
#[derive(Clone, Copy, PartialEq, Eq, Debug)]
pub struct Message {
    pub sender: u8,
    pub receiver: u8,
    pub name: u8,
}

// Names are below this.
pub const NAMES: u8 = 32;

// There are at most so many parties. An array's length, which can't be computed, is written out.
pub const PARTIES: u8 = 6;

impl Message {
    // The message with a number, by sender, then receiver, then name; the numbers of all messages
    // between six parties are below 1152, and it goes round from there.
    pub fn numbered(number: u64) -> Message
        ensures known { Known result }
        ensures number { number < 1152 → rank_of result ≡ number }
    {
        let (names, parties) = (u64::from(NAMES), u64::from(PARTIES));
        let pair = number / names;
        Message {
            sender: (pair / parties % parties) as u8,
            receiver: (pair % parties) as u8,
            name: (number % names) as u8,
        }
    }
}

impl Act {
    // The message that the act sends or receives.
    pub fn message(self) -> Message
        ensures { result ≡ message_of self }
    {
        match self.letter {
            Letter::Send => Message {
                sender: self.party,
                receiver: self.peer,
                name: self.name,
            },
            Letter::Receive => Message {
                sender: self.peer,
                receiver: self.party,
                name: self.name,
            },
        }
    }

    // Whether the act sends the message. This question and the next are one expression each: with the
    // letter as a parameter they would be no plainer.
    pub fn sends(self, message: Message) -> bool
        ensures { result ≡ send_of message.sender message.receiver message.name self }
    {
        self.letter == Letter::Send && self.message() == message
    }

    // Whether the act receives the message.
    pub fn receives(self, message: Message) -> bool
        ensures { result ≡ receive_of message.sender message.receiver message.name self }
    {
        self.letter == Letter::Receive && self.message() == message
    }

    // Whether the act comes first in the order of acts: the order of its type, in the subject's words.
    pub fn precedes(self, other: Act) -> bool
        ensures { (result ≡ true) ↔ Sooner self other }
    {
        self < other
    }
}

// What the party of the act does, in words.
impl fmt::Display for Act {
    ghost output = { λ act. Some (words_of act) };

    fn fmt<W: fmt::Write>(&self, f: &mut fmt::Formatter<W>) -> fmt::Result {
        let name = self.name;
        let peer = self.peer;
        match self.letter {
            Letter::Send => write!(f, "sends {name} to {peer}"),
            Letter::Receive => write!(f, "receives {name} from {peer}"),
        }
    }
}

// Of two different acts exactly one comes first, and of two different lists of acts too.
pub fn order_is_strict()
    ensures { OrderIsStrict }
{}

// After two granted lists with the same parts the same lists are granted.
pub fn parts_decide()
    ensures { PartsDecide }
{}

// A granted list whose parts are beginnings of another granted list's parts can be lengthened to
// exactly those parts.
pub fn completion()
    ensures { Completion }
{}

// Where no line's next act is granted, no granted list along the lines has more acts.
pub fn stuck_is_longest()
    ensures { StuckIsLongest }
{}

// The playing orders keep the laws of a language.
pub fn playing_orders()
    ensures { PlayingOrders }
{}

// The lists that `run` computes have the most acts that are granted along the lines.
pub fn run_is_longest()
    ensures { RunIsLongest }
{}
