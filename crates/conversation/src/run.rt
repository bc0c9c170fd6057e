ghost use Rattle.std.specs.Prelude.{◌≡◌};
ghost use Rattle.lines.specs.Of.{lines_of};
ghost use Rattle.chart.specs.Of.{lines_in};
ghost use Rattle.channel.specs.Meaning.{cleared};
ghost use Rattle.conversation.specs.Running.{Stepped, Ran};

use crate::order::Order;
use acts::Act;
use channel::channel::Channel;
use chart::chart::Chart;
use lines::progress::Progress;

// Carries the next act of the first party whose next act the channel grants. A pass of its own beside
// `Progress::first`, since carry asks and does in one call: to ask first made a run half again as long.
fn advance<C: Channel>(channel: &mut C, progress: &mut Progress) -> Option<Act>
    ensures sheet { progress.new.sheet.now ≡ progress.old.sheet.now }
    ensures step { Stepped (lines_of progress.old.sheet.now) (C.Channel.meaning channel.old) progress.old.done result (C.Channel.meaning channel.new) progress.new.done }
{
    for party in 0..6 {
        if let Some(act) = progress.next(party)
            && channel.carry(act).is_ok()
        {
            progress.pass(party);
            return Some(act);
        }
    }
    None
}

// Runs the chart's lines over the channel from clear until no next act is granted. Answers how many
// acts were carried, which are noted in `order`, and leaves the channel clear.
pub fn run<C: Channel>(channel: &mut C, chart: &Chart, order: &mut Order) -> usize
    ensures ran { Ran (C.Channel.meaning channel.old).clearly (lines_in chart.now) order.new.acts.items result }
    ensures clear { C.Channel.meaning channel.new ≡ cleared (C.Channel.meaning channel.old) }
{
    order.clear();
    channel.clear(); // of what an earlier use left
    let mut progress = Progress::new(chart.sheet());
    while let Some(act) = advance(channel, &mut progress) {
        order.push(act); // which has room for all acts of a chart
    }
    channel.clear(); // of what a run that is stuck leaves
    order.acts().len()
}
