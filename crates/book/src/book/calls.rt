ghost use Rattle.std.specs.Prelude.{◌≡◌, ℕ, ◌<◌, Bool, List, IfOk, Err, MatchOption};
ghost use Rattle.acts.specs.declared.Act.{Act};
ghost use Rattle.chart.specs.Of.{lines_in};
ghost use Rattle.book.specs.History.{History, start, add, withdraw, put, number};
ghost use Rattle.book.specs.Right.{refusal};
ghost use Rattle.book.specs.Past.{Past, Keeps, shown, charts_of, standing};
ghost use Rattle.book.specs.Finding.{AsMany, NotAsMany, Nowhere, Somewhere};
ghost use Rattle.book.specs.Law.{Law};

use crate::book::Book;
use channel::channel::Channel;
use chart::chart::Chart;
use conversation::order::Order;
use conversation::run::run;
use fault::{BookCause, Fault};
use std::alloc::{AllocError, Global};
use std::array;

// The highest id.
const LAST_ID: u8 = 7;

// A refusal of the book, as the rows of the right answer say it.
fn refused(cause: BookCause, place: usize) -> Fault
    ensures { Err result ≡ refusal cause place }
{
    Fault::new(cause, place)
}

impl<C: Channel + Drop> Book<C> {
    // A book that holds nothing, over this channel, which it clears. All memory that the book needs
    // is taken here.
    pub fn new(heap: Global, mut channel: C) -> Result<Self, AllocError>
        ensures { IfOk result (λ b. Past (C.Channel.meaning channel).clearly start (standing C.Channel.meaning b)) }
    {
        let order = Order::new(heap)?;
        channel.clear();
        Ok(Book {
            channel,
            charts: array::from_fn(|_| None),
            order,
        })
    }
}

impl<C: Channel> Book<C> {
    // How many charts are held.
    fn count(&self) -> u8
        ensures { result ≡ number (charts_of self.now) }
    {
        self.charts.iter().flatten().count() as u8
    }

    // The number of parties of the first held chart that has another number of them.
    fn other_parties(&self, chart: &Chart) -> Option<u8>
        ensures { MatchOption result (AsMany (charts_of self.now) (lines_in chart.now)) (λ n. NotAsMany (charts_of self.now) (lines_in chart.now) n) }
    {
        let expected = chart.parties();
        self.charts
            .iter()
            .flatten()
            .map(Chart::parties)
            .find(|parties| *parties != expected)
    }

    // The id of a held chart that is equal.
    fn equal_chart(&self, chart: &Chart) -> Option<usize>
        ensures { MatchOption result (Nowhere (charts_of self.now) (lines_in chart.now)) (λ i. Somewhere (charts_of self.now) (lines_in chart.now) i) }
    {
        self.charts.iter().position(|slot| matches!(slot, Some(held) if held.same_lines(chart)))
    }

    // Puts a chart or nothing under an id, and answers how many charts are held then.
    fn place(&mut self, slot: usize, chart: Option<Chart>) -> u8
        requires { slot < 8 }
        ensures table { (i : ℕ) → charts_of self.new i ≡ put slot (shown chart) (charts_of self.old) i }
        ensures channel { self.new.channel ≡ self.old.channel }
        ensures count { result ≡ number (charts_of self.new) }
    {
        self.charts[slot] = chart;
        self.count()
    }

    // Holds the chart under the id, and answers how many charts are held then. The chart is used
    // up, granted or refused.
    pub fn add(&mut self, id: u8, chart: Chart) -> Result<u8, Fault>
        ensures { Keeps (standing C.Channel.meaning self.old) (add id (lines_in chart)) result (standing C.Channel.meaning self.new) }
    {
        let slot = usize::from(id);
        if id > LAST_ID {
            return Err(refused(BookCause::IdAbove, slot));
        }
        if self.charts[slot].is_some() {
            return Err(refused(BookCause::IdTaken, slot));
        }
        if let Some(parties) = self.other_parties(&chart) {
            return Err(refused(BookCause::OtherParties, usize::from(parties)));
        }
        if let Some(equal) = self.equal_chart(&chart) {
            return Err(refused(BookCause::EqualChart, equal));
        }
        let most = run(&mut self.channel, &chart, &mut self.order);
        if most < chart.size() {
            return Err(refused(BookCause::NoConversation, most));
        }
        Ok(self.place(slot, Some(chart)))
    }

    // Lets the chart under the id go, and answers how many charts are held then.
    pub fn withdraw(&mut self, id: u8) -> Result<u8, Fault>
        ensures { Keeps (standing C.Channel.meaning self.old) (withdraw id) result (standing C.Channel.meaning self.new) }
    {
        let slot = usize::from(id);
        if id > LAST_ID {
            return Err(refused(BookCause::IdAbove, slot));
        }
        if self.charts[slot].is_none() {
            return Err(refused(BookCause::IdFree, slot));
        }
        Ok(self.place(slot, None))
    }

    // What holds after every past that the book may have had.
    pub fn law_of_histories(&self)
        ensures { (G : List Act → Bool) (h : History) → Past G h (standing C.Channel.meaning self.now) → Law G h }
    {}
}
