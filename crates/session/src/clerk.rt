ghost use Rattle.std.specs.Prelude.{◌≤◌, length};

use book::book::Book;
use channel::channel::Channel;
use std::alloc::Global;

mod commands;

// A session under way: its bytes and the place where the next command is due, the book that the
// commands call, and the text so far.
#[derive(Drop)]
pub struct Clerk<'a, C: Channel> {
    pub heap: Global,
    pub session: &'a [u8],
    pub place: usize,
    pub book: Book<C>,
    pub text: String,
    ghost within: { place ≤ length session.now },
}
