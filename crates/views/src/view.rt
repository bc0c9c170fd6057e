use acts::{Act, Letter};

// A view of a party: a beginning of its line in some chart. It lengthens an earlier view by an act.
// Views name each other by number, since the machine file and a search's tuples tell these numbers.
#[derive(Clone, Copy)]
pub struct View {
    pub lengthens: u16,
    pub act: Act,
    // The charts whose line begins with the view, and those whose line it is: bit i for id i.
    pub charts: u8,
    pub complete: u8,
}

// View 0, the empty one: its act counts for nothing.
// An Option there would be no plainer: whoever reads a later view's act would have to open it.
pub const EMPTY: View = View {
    lengthens: 0,
    act: Act {
        party: 0,
        letter: Letter::Send,
        peer: 0,
        name: 0,
    },
    charts: 0,
    complete: 0,
};
