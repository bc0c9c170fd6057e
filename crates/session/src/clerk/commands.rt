ghost use Rattle.std.specs.Prelude.{◌≡◌, ℕ, ◌+◌, ◌<◌, List, ◌++◌, length, drop, IfOk, Err, string_bytes, slice_index};
ghost use Rattle.book.specs.Past.{standing};
ghost use Rattle.fault.specs.declared.Layer.TheVariants.{Session};
ghost use Rattle.session.specs.Lines.{answer_tail, answer_text};
ghost use Rattle.session.specs.Course.{course};
ghost use Rattle.session.specs.Stepping.{Adds, Steps, Stops};

use crate::clerk::Clerk;
use book::book::Book;
use channel::channel::Channel;
use chart::chart::Chart;
use fault::{Fault, SessionCause};
use std::alloc::{AllocError, Global};

// Reads a chart file and adds its chart under the id.
fn add_file<C: Channel>(
    heap: Global,
    book: &mut Book<C>,
    id: u8,
    file: &[u8],
) -> Result<Result<u8, Fault>, AllocError>
    ensures { IfOk result (λ a. Adds (standing C.Channel.meaning book.old) id file.now a (standing C.Channel.meaning book.new)) }
{
    let mut chart = Chart::new(heap)?;
    if let Err(fault) = chart.read(file) {
        return Ok(Err(fault));
    }
    Ok(book.add(id, chart))
}

// Writes the line of an answer: the letter, the refusal's number or 0, and two numbers.
fn write_answer(
    text: &mut String,
    letter: &str,
    answer: Result<u8, Fault>,
) -> Result<(), AllocError>
    ensures { IfOk result (λ _. string_bytes text.new ≡ string_bytes text.old ++ (letter.now ++ answer_tail answer)) }
{
    match answer {
        Ok(held) => writeln!(text, "{letter} 0 {held} 0"),
        Err(fault) => {
            let number = fault.number();
            let place = fault.place;
            writeln!(text, "{letter} {number} {place} 0")
        }
    }
}

// That a command is due is a clause of three: a struct for so long would only wrap the clerk.
impl<'a, C: Channel> Clerk<'a, C> {
    // The bytes from the place on. The cursor of the chart's reader has the same line, and speaks of
    // faults of files beside it.
    fn rest(&self) -> &'a [u8]
        ensures value { result.now ≡ drop self.now.place self.now.session.now }
        ensures len { length result.now + self.now.place ≡ length self.now.session.now }
    {
        &self.session[self.place..]
    }

    // The line of a session that cannot go on, of which nothing more is read.
    fn stop(&mut self, cause: SessionCause, place: usize) -> Result<(), AllocError>
        ensures { IfOk result (λ _. Stops (course self.old) (answer_text 63 (Err (record { layer = Session cause; place = place }))) (course self.new)) }
    {
        write_answer(&mut self.text, "?", Err(Fault::new(cause, place)))?;
        self.place = self.session.len();
        Ok(())
    }

    // A: an id, a length of two bytes, and that many bytes of a chart file.
    fn add_command(&mut self) -> Result<(), AllocError>
        requires within { self.old.place < length self.old.session.now }
        requires letter { slice_index (drop self.old.place self.old.session.now) 0 ≡ 65 }
        ensures { IfOk result (λ _. Steps (course self.old) (course self.new)) }
    {
        let [_, id, high, low, after @ ..] = self.rest() else {
            return self.stop(SessionCause::CutShort, self.session.len());
        };
        let length = usize::from(u16::from_be_bytes([*high, *low]));
        let Some(file) = after.get(..length) else {
            return self.stop(SessionCause::CutShort, self.session.len());
        };
        let answer = add_file(self.heap, &mut self.book, *id, file)?;
        write_answer(&mut self.text, "A", answer)?;
        self.place += 4 + length;
        Ok(())
    }

    // W: an id.
    fn withdraw_command(&mut self) -> Result<(), AllocError>
        requires within { self.old.place < length self.old.session.now }
        requires letter { slice_index (drop self.old.place self.old.session.now) 0 ≡ 87 }
        ensures { IfOk result (λ _. Steps (course self.old) (course self.new)) }
    {
        let [_, id, ..] = self.rest() else {
            return self.stop(SessionCause::CutShort, self.session.len());
        };
        let answer = self.book.withdraw(*id);
        write_answer(&mut self.text, "W", answer)?;
        self.place += 2;
        Ok(())
    }

    // One command: which is due is the letter that stands in the session.
    pub fn command(&mut self) -> Result<(), AllocError>
        requires { self.old.place < length self.old.session.now }
        ensures { IfOk result (λ _. Steps (course self.old) (course self.new)) }
    {
        match self.rest() {
            [b'A', ..] => self.add_command(),
            [b'W', ..] => self.withdraw_command(),
            _ => self.stop(SessionCause::UnknownLetter, self.place),
        }
    }
}
