ghost use Rattle.std.specs.Prelude.{◌≡◌, ℕ, ◌≤◌, length};
ghost use Rattle.chart.specs.Writing.{put};
ghost use Rattle.chart.specs.Putting.{Fits, Puts};
ghost use Rattle.search.specs.Kinds.{kind_number};
ghost use Rattle.machines.specs.Files.{list_file_bytes};

use crate::bytes::told_bytes;
use acts::Act;
use chart::output::Output;
use search::graph::Kind;

// How many bytes the list file of so many acts has.
pub fn list_length(acts: &[Act]) -> usize
    requires { length acts.now ≤ 192 }
    ensures { (kind : ℕ) → result ≡ length (list_file_bytes kind acts.now) }
{
    3 + 4 * acts.len()
}

// Puts the list file of the acts, of this kind.
fn put_list(output: &mut Output, kind: Kind, acts: &[Act])
    requires { Fits output.old (list_file_bytes (kind_number kind) acts.now) }
    ensures { Puts output.old (list_file_bytes (kind_number kind) acts.now) output.new }
{
    output.put(&[b'W', u8::from(kind)]);
    for act in acts {
        output.put(&told_bytes(*act));
    }
    output.put(b"Z");
}

// Writes the list file of the acts, of this kind, at the output's front.
pub fn write_list(kind: Kind, acts: &[Act], output: &mut [u8])
    requires { length (list_file_bytes (kind_number kind) acts.now) ≤ length output.old }
    ensures { output.new ≡ put output.old 0 (list_file_bytes (kind_number kind) acts.now) }
{
    put_list(&mut Output::new(output), kind, acts);
}
