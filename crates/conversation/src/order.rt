use lines::act_list::ActList;

// The most acts of a chart: six lines of 32.
pub const MOST: usize = 192;

// Acts in the order in which a channel carried them, with memory for all acts of a chart.
pub type Order = ActList<MOST>;
