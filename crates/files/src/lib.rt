#![tactic(auto)]

ghost use Rattle.files.specs.Theorems.{EveryFile, RoundTrip, LongFiles};

// Every file is either the bytes of one chart, or has exactly one fault.
pub fn every_file_has_one_answer()
    ensures { EveryFile }
{}

// A chart's bytes read as that chart, charts with the same bytes are the same, and a file that is
// read is written as its very bytes.
pub fn files_and_charts_match()
    ensures { RoundTrip }
{}

// Of a file with more than 592 bytes the first 593 tell the answer.
pub fn long_files_by_their_front()
    ensures { LongFiles }
{}
