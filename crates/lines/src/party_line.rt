use crate::act_list::ActList;

// The most acts of one line.
pub const MOST_ACTS: usize = 32;

// The acts of one party, with memory for all that a line can hold.
pub type PartyLine = ActList<MOST_ACTS>;
