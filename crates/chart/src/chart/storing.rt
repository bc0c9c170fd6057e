ghost use Rattle.std.specs.Prelude.{◌≡◌, true, ◌↔◌, length, is_ok, MatchResult};
ghost use Rattle.acts.specs.Acts.{Lines};
ghost use Rattle.files.specs.Answers.{ChartFile, Refused};
ghost use Rattle.files.specs.Bytes.{file_of};
ghost use Rattle.chart.specs.Of.{lines_in};
ghost use Rattle.chart.specs.Putting.{Fits, Puts};
ghost use Rattle.chart.specs.Writing.{Written};

use crate::chart::Chart;
use crate::output::Output;
use crate::reader::{check, fill};
use crate::writer::write_line;
use fault::{BookCause, Fault};
use std::mem::swap;

impl Chart {
    // Reads a chart file into this place. A faulty file leaves the place as it was and is answered
    // by the first thing wrong.
    pub fn read(&mut self, file: &[u8]) -> Result<(), Fault>
        ensures { MatchResult result (λ _. ChartFile file.now (lines_in self.new)) (λ f. Refused file.now f × (lines_in self.new ≡ lines_in self.old)) }
    {
        fill(&mut self.spare, file)?;
        check(&self.spare)?;
        swap(&mut self.sheet, &mut self.spare);
        Ok(())
    }

    // How many bytes the chart's file has.
    pub fn file_length(&self) -> usize
        ensures { result ≡ length (file_of (lines_in self.now)) }
    {
        3 + 2 * usize::from(self.parties()) + 3 * self.size()
    }

    // Puts the chart's file.
    fn put(&self, output: &mut Output)
        requires { Fits output.old (file_of (lines_in self.now)) }
        ensures { Puts output.old (file_of (lines_in self.now)) output.new }
    {
        output.put(&[b'C', self.parties()]);
        // By number: a chart lends its lines one by one, and each is written with its party's number.
        for party in 0..self.parties() {
            write_line(output, party, self.line(party));
        }
        output.put(&[b'Z']);
    }

    // Writes the chart's file at the output's front, and answers its length. An output that is too
    // short stays as it was.
    pub fn write(&self, output: &mut [u8]) -> Result<usize, Fault>
        ensures { Written (file_of (lines_in self.now)) output.old result output.new }
    {
        let due = self.file_length();
        if output.len() < due {
            return Err(Fault::new(BookCause::OutputShort, due));
        }
        self.put(&mut Output::new(output));
        Ok(due)
    }
}
