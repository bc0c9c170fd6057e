ghost use Rattle.std.specs.Prelude.{◌≡◌, IfOk, string_bytes};
ghost use Rattle.session.specs.Sessions.{text_of_session};

use crate::clerk::Clerk;
use book::book::Book;
use channel::channel::Channel;
use std::alloc::{AllocError, Global};

// So many bytes of a session a program looks at.
pub const MOST: usize = 32768;

// The text that a session over the channel gives.
pub fn session_text<C: Channel + Drop>(
    heap: Global,
    channel: C,
    session: &[u8],
) -> Result<String, AllocError>
    ensures { IfOk result (λ t. string_bytes t ≡ text_of_session (C.Channel.meaning channel).clearly session.now) }
{
    let mut clerk = Clerk {
        heap,
        session,
        place: 0,
        book: Book::new(heap, channel)?,
        text: String::new(heap),
    };
    // A `while`, since commands differ in length.
    while clerk.place < session.len() {
        clerk.command()?;
    }
    Ok(clerk.text)
}
