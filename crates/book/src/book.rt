use channel::channel::Channel;
use chart::chart::Chart;
use conversation::order::Order;

mod calls;

// Up to eight charts over a channel, each under an id from 0 to 7.
#[derive(Drop)]
pub struct Book<C: Channel> {
    channel: C,
    charts: [Option<Chart>; 8],
    order: Order,
}
