ghost use Rattle.std.specs.Prelude.{◌≡◌};
ghost use Rattle.files.specs.Bytes.{act_bytes, line_bytes};
ghost use Rattle.chart.specs.Putting.{Fits, Puts};

use crate::output::Output;
use acts::Act;

// Puts an act.
fn write_act(output: &mut Output, act: Act)
    requires { Fits output.old (act_bytes act) }
    ensures { Puts output.old (act_bytes act) output.new }
{
    output.put(&[u8::from(act.letter), act.peer, act.name]);
}

// Puts a party's line.
pub fn write_line(output: &mut Output, party: u8, acts: &[Act])
    requires { Fits output.old (line_bytes party acts.now) }
    ensures { Puts output.old (line_bytes party acts.now) output.new }
{
    output.put(&[b'L', party]);
    for act in acts {
        write_act(output, *act);
    }
}
