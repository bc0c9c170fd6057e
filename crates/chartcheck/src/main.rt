// Reads one chart file from standard input and says what it holds, or what spoils it.
#![tactic(auto)]

use channel::bag::Bag;
use channel::line::Line;
use chart::chart::Chart;
use conversation::order::Order;
use input::front;
use std::process::ExitCode;

mod report;

// No chart file has more than 591 bytes, and the first 593 bytes of any input tell its answer.
const LOOKED_AT: usize = 1024;

// What the chart does over a link that keeps the order of its messages, and over one that does not.
fn links(rt: &HostRuntime, chart: &Chart) -> anyhow::Result<()> {
    let heap = rt.alloc();
    let mut order = Order::new(heap)?;
    let mut line = Line::new(heap)?;
    rt.print(report::link_words(heap, "the line", &mut line, chart, &mut order)?)?;
    let mut bag = Bag::new();
    rt.print(report::link_words(heap, "the bag", &mut bag, chart, &mut order)?)?;
    Ok(())
}

// Ends with status 0 for a chart, and with 1 for a file that is refused.
fn main(rt: HostRuntime) -> anyhow::Result<ExitCode> {
    let heap = rt.alloc();
    let mut buffer = [0u8; LOOKED_AT];
    let length = front(rt.stdin(), &mut buffer)?;
    let file = &buffer[..length];
    let mut chart = Chart::new(heap)?;
    if let Err(fault) = chart.read(file) {
        rt.print(report::refused(heap, file, fault)?)?;
        return Ok(ExitCode::FAILURE);
    }
    rt.print(report::accepted(heap, &chart)?)?;
    links(&rt, &chart)?;
    Ok(ExitCode::SUCCESS)
}
