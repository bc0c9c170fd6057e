// Reads a session from standard input and prints its text, over a channel that keeps the order of messages.
#![tactic(auto)]

use channel::line::Line;
use input::front;
use session::session::{MOST, session_text};

// chartbag is the same over its channel: one function for both would print, of which no contract speaks.
fn main(rt: HostRuntime) -> anyhow::Result<()> {
    let heap = rt.alloc();
    let mut buffer = vec![in heap; 0u8; MOST]?;
    let length = front(rt.stdin(), &mut buffer)?;
    rt.print(session_text(heap, Line::new(heap)?, &buffer[..length])?)?;
    Ok(())
}
