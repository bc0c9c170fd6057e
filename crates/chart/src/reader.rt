ghost use Rattle.std.specs.Prelude.{◌≡◌, length, MatchResult};
ghost use Rattle.lines.specs.Charts.{Lined, IsChart};
ghost use Rattle.lines.specs.Of.{lines_of};
ghost use Rattle.files.specs.Bytes.{file_of};
ghost use Rattle.acts.specs.Acts.{byte_of_letter};
ghost use Rattle.fault.specs.declared.FileCause.TheVariants.{GoesOn};
ghost use Rattle.files.specs.Answers.{BadFile, Refused, file_fault};
ghost use Rattle.chart.specs.Steps.{file_at, place_at, Due, Taken, letter_at, AtFront, Read};

use crate::cursor::Cursor;
use acts::{Act, Letter, NAMES};
use fault::{ChartCause, Fault, FileCause};
use lines::sheet::Sheet;
use std::ops::ControlFlow;

// A file on its way into a sheet, command by command; the last command breaks off.
#[derive(Drop)]
pub struct Reader<'s, 'f> {
    sheet: &'s mut Sheet,
    cursor: Cursor<'f>,
}

// `Due` is a clause of four: a struct for the time of one command would only wrap the reader.
impl Reader<'_, '_> {
    // C: the number of parties.
    fn open(&mut self) -> Result<ControlFlow<()>, Fault>
        requires { Due self.old }
        ensures { Taken 67 self.old result self.new }
    {
        let cursor = &mut self.cursor;
        if self.sheet.parties() != 0 {
            return Err(cursor.fault(FileCause::NotAllowed, 0));
        }
        let [_, parties, ..] = cursor.rest() else {
            return Err(cursor.cut_short());
        };
        if self.sheet.open(*parties).is_err() {
            return Err(cursor.fault(FileCause::OutOfRange, 1));
        }
        cursor.pass(2);
        Ok(ControlFlow::Continue(()))
    }

    // L: the next party's line.
    fn begin(&mut self) -> Result<ControlFlow<()>, Fault>
        requires { Due self.old }
        ensures { Taken 76 self.old result self.new }
    {
        let cursor = &mut self.cursor;
        let begun = self.sheet.begun();
        if begun >= self.sheet.parties() {
            return Err(cursor.fault(FileCause::NotAllowed, 0));
        }
        let [_, party, ..] = cursor.rest() else {
            return Err(cursor.cut_short());
        };
        if *party != begun {
            return Err(cursor.fault(FileCause::OutOfRange, 1));
        }
        let _ = self.sheet.begin_line(); // a line is missing, as tested above
        cursor.pass(2);
        Ok(ControlFlow::Continue(()))
    }

    // S or R: an act of the line's party.
    fn act(&mut self, letter: Letter) -> Result<ControlFlow<()>, Fault>
        requires { Due self.old }
        ensures { Taken (byte_of_letter letter) self.old result self.new }
    {
        let cursor = &mut self.cursor;
        let begun = self.sheet.begun();
        if begun == 0 {
            return Err(cursor.fault(FileCause::NotAllowed, 0));
        }
        let party = begun - 1;
        let [_, peer, name, ..] = cursor.rest() else {
            return Err(cursor.cut_short());
        };
        let (peer, name) = (*peer, *name);
        if peer >= self.sheet.parties() || peer == party {
            return Err(cursor.fault(FileCause::OutOfRange, 1));
        }
        if name >= NAMES {
            return Err(cursor.fault(FileCause::OutOfRange, 2));
        }
        let act = Act {
            party,
            letter,
            peer,
            name,
        };
        if self.sheet.lengthen(act).is_err() {
            return Err(cursor.fault(FileCause::LineFull, 0));
        }
        cursor.pass(3);
        Ok(ControlFlow::Continue(()))
    }

    // Z: the end of the last line.
    fn close(&mut self) -> Result<ControlFlow<()>, Fault>
        requires { Due self.old }
        ensures { Taken 90 self.old result self.new }
    {
        let cursor = &mut self.cursor;
        let parties = self.sheet.parties();
        if parties == 0 || self.sheet.begun() != parties {
            return Err(cursor.fault(FileCause::NotAllowed, 0));
        }
        cursor.pass(1);
        Ok(ControlFlow::Break(()))
    }

    // One command, selected by its letter: which is due is what stands in the file.
    fn command(&mut self) -> Result<ControlFlow<()>, Fault>
        ensures { Taken (letter_at self.old) self.old result self.new }
    {
        let cursor = &mut self.cursor;
        let [letter, ..] = cursor.rest() else {
            return Err(cursor.cut_short());
        };
        match char::from(*letter) {
            'C' => self.open(),
            'L' => self.begin(),
            'S' => self.act(Letter::Send),
            'R' => self.act(Letter::Receive),
            'Z' => self.close(),
            _ => Err(cursor.fault(FileCause::NotAllowed, 0)),
        }
    }

    // Nothing may stand behind the last command.
    fn finish(&self) -> Result<(), Fault>
        ensures { MatchResult result (λ _. place_at self.now ≡ length (file_at self.now)) (λ f. Due self.now × (f ≡ file_fault GoesOn (place_at self.now))) }
    {
        if !self.cursor.rest().is_empty() {
            return Err(self.cursor.fault(FileCause::GoesOn, 0));
        }
        Ok(())
    }

    // All commands, from the front of the file to its end.
    fn read(&mut self) -> Result<(), Fault>
        requires { AtFront self.old }
        ensures { Read self.old result self.new }
    {
        while self.command()?.is_continue() {}
        self.finish()
    }
}

// Fills the sheet with the lines of a complete file.
pub fn fill(sheet: &mut Sheet, file: &[u8]) -> Result<(), Fault>
    ensures { MatchResult result (λ _. Lined (lines_of sheet.new) × (file_of (lines_of sheet.new) ≡ file.now)) (λ f. BadFile file.now f) }
{
    sheet.wipe();
    let cursor = Cursor::new(file);
    Reader { sheet, cursor }.read()
}

// Whether the lines of a complete file make a chart.
pub fn check(sheet: &Sheet) -> Result<(), Fault>
    ensures { Lined (lines_of sheet.now) → MatchResult result (λ _. IsChart (lines_of sheet.now)) (λ f. Refused (file_of (lines_of sheet.now)) f) }
{
    if let Some(number) = sheet.first_unpaired() {
        return Err(Fault::new(ChartCause::NotPaired, usize::from(number)));
    }
    let acts = sheet.longest_order();
    if acts < sheet.size() {
        return Err(Fault::new(ChartCause::NotPlayable, acts));
    }
    Ok(())
}
