// What took place, in words.
use acts::{Act, Message};
use channel::channel::Channel;
use chart::chart::Chart;
use conversation::order::Order;
use conversation::run::run;
use fault::{ChartCause, Fault, Layer};
use std::alloc::{AllocError, Global};
use std::fmt;

// Bytes in one line of hexadecimal digits.
const WIDTH: usize = 16;

// One party's line, act by act.
#[derive(Drop)]
struct LineOfActs<'a> {
    party: u8,
    acts: &'a [Act],
}

impl<'a> fmt::Display for LineOfActs<'a> {
    fn fmt<W: fmt::Write>(&self, f: &mut fmt::Formatter<W>) -> fmt::Result {
        let party = self.party;
        let Some((first, others)) = self.acts.split_first() else {
            return writeln!(f, "party {party}: no acts");
        };
        write!(f, "party {party}: {first}")?;
        for act in others {
            write!(f, ", {act}")?;
        }
        writeln!(f)
    }
}

// A line of bytes as pairs of hexadecimal digits, with the place of the first; the marked byte
// stands in brackets.
#[derive(Drop)]
struct HexLine<'a> {
    place: usize,
    bytes: &'a [u8],
    mark: Option<usize>,
}

impl<'a> fmt::Display for HexLine<'a> {
    fn fmt<W: fmt::Write>(&self, f: &mut fmt::Formatter<W>) -> fmt::Result {
        let place = self.place;
        write!(f, "{place:>5} ")?;
        for (at, byte) in self.bytes.iter().enumerate() {
            if self.mark == Some(at) {
                write!(f, " [{byte:02x}]")?;
            } else {
                write!(f, " {byte:02x}")?;
            }
        }
        writeln!(f)
    }
}

// The chart's file as written back.
fn file_words(heap: Global, chart: &Chart) -> Result<String, AllocError> {
    let mut output = vec![in heap; 0u8; chart.file_length()]?;
    let Ok(length) = chart.write(output.as_mut_slice()) else {
        return Ok(String::new(heap)); // an output of the due length is not refused
    };
    let mut text = format!(in heap; "its file of {length} bytes\n")?;
    for (row, bytes) in output.as_slice().chunks(WIDTH).enumerate() {
        let line = HexLine {
            place: row.saturating_mul(WIDTH),
            bytes,
            mark: None,
        };
        write!(text, "{line}")?;
    }
    Ok(text)
}

// A chart: its parties, their lines, and its file.
pub fn accepted(heap: Global, chart: &Chart) -> Result<String, AllocError> {
    let parties = chart.parties();
    let size = chart.size();
    let mut text = format!(in heap; "a chart of {parties} parties and {size} acts\n")?;
    // By number: a chart lends its lines one by one, and each is printed with its party's number.
    for party in 0..parties {
        let acts = chart.line(party);
        let line = LineOfActs { party, acts };
        write!(text, "{line}")?;
    }
    text.push_str(file_words(heap, chart)?.as_str())?;
    Ok(text)
}

// Whether the chart has a conversation over a link, with the acts carried one after another.
pub fn link_words<C: Channel>(
    heap: Global,
    link: &str,
    channel: &mut C,
    chart: &Chart,
    order: &mut Order,
) -> Result<String, AllocError> {
    let carried = run(channel, chart, order);
    if carried < chart.size() {
        return format!(in heap; "over {link}: no conversation, stuck after {carried} acts\n");
    }
    let mut text = format!(in heap; "over {link}: a conversation\n")?;
    for act in order.acts() {
        let party = act.party;
        writeln!(text, "  {party} {act}")?;
    }
    Ok(text)
}

// The line of the file that has the spot, and whether the file ends there.
fn spot_words(heap: Global, file: &[u8], place: u64) -> Result<String, AllocError> {
    let spot = usize::try_from(place).map_or(file.len(), |spot| spot.min(file.len()));
    let row = spot / WIDTH;
    let mut text = String::new(heap);
    if let Some(bytes) = file.chunks(WIDTH).nth(row) {
        let line = HexLine {
            place: row * WIDTH,
            bytes,
            mark: Some(spot % WIDTH),
        };
        write!(text, "{line}")?;
    }
    if spot == file.len() {
        text.push_str("      [end]\n")?;
    }
    Ok(text)
}

// What the place of a refusal means: a spot of the file, a message, or a number of acts.
fn place_words(heap: Global, file: &[u8], fault: Fault) -> Result<String, AllocError> {
    let place = fault.place;
    match fault.layer {
        Layer::Chart(ChartCause::NotPaired) => {
            let Message {
                sender,
                receiver,
                name,
            } = Message::numbered(place);
            format!(in heap; "the message {name} from {sender} to {receiver}\n")
        }
        Layer::Chart(ChartCause::NotPlayable) => {
            format!(in heap; "the longest playing order has {place} acts\n")
        }
        _ => spot_words(heap, file, place),
    }
}

// A refusal: what it is, and the spot.
pub fn refused(heap: Global, file: &[u8], fault: Fault) -> Result<String, AllocError> {
    let mut text = format!(in heap; "{fault}\n")?;
    text.push_str(place_words(heap, file, fault)?.as_str())?;
    Ok(text)
}
