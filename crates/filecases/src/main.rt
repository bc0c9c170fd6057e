// Reads files as lines of hexadecimal digits from standard input, and prints a line for each: the
// refusal's number and place, or 0 and the length of a chart's file that is written as its very
// bytes.
#![tactic(auto)]

use chart::chart::Chart;
use std::alloc::{AllocError, Global};

// A letter that is no digit counts as 0; `hex` would refuse it.
fn digit(letter: u8) -> u8 {
    match letter {
        b'0'..=b'9' => letter - b'0',
        b'a'..=b'f' => letter - b'a' + 10,
        _ => 0,
    }
}

// The bytes that pairs of digits spell.
fn decoded(heap: Global, text: &str) -> Result<Vec<u8>, AllocError> {
    let mut bytes = Vec::new(heap);
    for pair in text.as_bytes().chunks_exact(2) {
        bytes.push(digit(pair[0]).wrapping_mul(16) | digit(pair[1]))?;
    }
    Ok(bytes)
}

fn answered(heap: Global, chart: &mut Chart, file: &[u8]) -> Result<String, AllocError> {
    if let Err(fault) = chart.read(file) {
        let number = fault.number();
        let place = fault.place;
        return format!(in heap; "{number} {place}");
    }
    let mut output = vec![in heap; 0u8; chart.file_length()]?;
    match chart.write(output.as_mut_slice()) {
        Ok(length) if output.as_slice() == file => format!(in heap; "0 {length}"),
        _ => String::from_str(heap, "written otherwise"),
    }
}

fn main(rt: HostRuntime) -> anyhow::Result<()> {
    let heap = rt.alloc();
    let mut chart = Chart::new(heap)?;
    for line in rt.lines(heap) {
        let file = decoded(heap, line?.as_str())?;
        let text = answered(heap, &mut chart, file.as_slice())?;
        println!(rt; "{text}")?;
    }
    Ok(())
}
