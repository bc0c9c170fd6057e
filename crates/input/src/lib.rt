#![tactic(auto)]

ghost use Rattle.std.specs.Prelude.{◌≡◌, ◌+◌, ◌<◌, ◌≤◌, length, take, drop, IfSome, IfOk};
ghost use Rattle.std.specs.Io.KnownBytes.{Consumes, IsAtEnd};

use std::io;
use std::io::Read;

// Fills the buffer from the input, until it is full or the input ends, and answers how many bytes
// came. An input may come in pieces: a loop over its reads, since std reads to an end into a Vec alone,
// which takes memory.
pub fn front<R: Read + Drop>(mut input: R, buffer: &mut [u8]) -> io::Result<usize>
    ensures bound { IfOk result (λ n. n ≤ length buffer.old) }
    ensures bytes { IfOk result (λ n. IfSome (R.remaining input)
        (λ xs. take n buffer.new ≡ take (length buffer.old) xs)) }
{
    let mut length = 0;
    while length < buffer.len() {
        let more = read_at(&mut input, buffer, length)?;
        if more == 0 {
            break;
        }
        length += more;
    }
    Ok(length)
}

// One read, into the buffer after its first `at` bytes.
fn read_at<R: Read>(input: &mut R, buffer: &mut [u8], at: usize) -> io::Result<usize>
    requires { at ≤ length buffer.old }
    ensures front { take at buffer.new ≡ take at buffer.old }
    ensures fits { IfOk result (λ n. at + n ≤ length buffer.new) }
    ensures bytes { IfOk result (λ n. Consumes (R.remaining input.old) (R.remaining input.new)
        (take n (drop at buffer.new))) }
    ensures end { IfOk result (λ n. n ≡ 0 → at < length buffer.new
        → IsAtEnd (R.remaining input.new)) }
{
    input.read(&mut buffer[at..])
}
