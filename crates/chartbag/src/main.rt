// Reads a session from standard input and prints its text, over a channel that delivers messages in any order.
#![tactic(auto)]

use channel::bag::Bag;
use input::front;
use session::session::{MOST, session_text};

// chartline is the same over its channel: one function for both would print, of which no contract speaks.
fn main(rt: HostRuntime) -> anyhow::Result<()> {
    let heap = rt.alloc();
    let mut buffer = vec![in heap; 0u8; MOST]?;
    let length = front(rt.stdin(), &mut buffer)?;
    rt.print(session_text(heap, Bag::new(), &buffer[..length])?)?;
    Ok(())
}
