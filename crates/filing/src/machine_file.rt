ghost use Rattle.std.specs.Prelude.{◌≡◌, ℕ, ◌≤◌, length};
ghost use Rattle.chart.specs.Writing.{put};
ghost use Rattle.chart.specs.Putting.{Fits, Puts};
ghost use Rattle.families.specs.Judgement.{Charts};
ghost use Rattle.machines.specs.Files.{machine_file_bytes};
ghost use Rattle.views.specs.Parties.{nodes_in, tables_in};
ghost use Rattle.filing.specs.Filed.{move_of, last_of, each_view, table_bytes, tables_file, Shown};

use crate::bytes::{last_bytes, move_bytes};
use chart::output::Output;
use views::party_views::PartyViews;

// How many bytes a party's views take.
fn party_length(views: &PartyViews) -> usize
    ensures { (party : ℕ) → result ≡ length (table_bytes party (nodes_in views.now)) }
{
    let views = views.views();
    let lasts = views.iter().filter(|view| view.complete != 0).count();
    2 + 7 * (views.len() - 1) + 3 * lasts
}

// How many bytes the machine file of the first parties has. The tables of six parties come with how
// many have lines, since a caller's tables hold all six.
pub fn machines_length(parties: &[PartyViews], count: u8) -> usize
    requires { count ≤ length parties.now }
    ensures tables { (code : ℕ) → result ≡ length (tables_file code count (tables_in parties.now)) }
    ensures charts { (f : Charts) → Shown f count (tables_in parties.now) → (code : ℕ) → result ≡ length (machine_file_bytes code count f) }
{
    let mut length = 4;
    for views in &parties[..usize::from(count)] {
        length += party_length(views);
    }
    length
}

// Puts the moves to a party's views.
fn put_moves(output: &mut Output, views: &PartyViews)
    requires { Fits output.old (each_view move_of 0 (nodes_in views.now)) }
    ensures { Puts output.old (each_view move_of 0 (nodes_in views.now)) output.new }
{
    for (number, view) in views.views().iter().enumerate().skip(1) {
        output.put(&move_bytes(number as u16, view));
    }
}

// Puts the last views of a party.
fn put_lasts(output: &mut Output, views: &PartyViews)
    requires { Fits output.old (each_view last_of 0 (nodes_in views.now)) }
    ensures { Puts output.old (each_view last_of 0 (nodes_in views.now)) output.new }
{
    for (number, view) in views.views().iter().enumerate() {
        if view.complete != 0 {
            output.put(&last_bytes(number as u16));
        }
    }
}

// Puts a party.
fn put_party(output: &mut Output, party: u8, views: &PartyViews)
    requires { Fits output.old (table_bytes party (nodes_in views.now)) }
    ensures { Puts output.old (table_bytes party (nodes_in views.now)) output.new }
{
    output.put(&[b'P', party]);
    put_moves(output, views);
    put_lasts(output, views);
}

// Puts the machine file of the first parties.
fn put_machines(output: &mut Output, code: u8, count: u8, parties: &[PartyViews])
    requires within { count ≤ length parties.now }
    requires room { Fits output.old (tables_file code count (tables_in parties.now)) }
    ensures { Puts output.old (tables_file code count (tables_in parties.now)) output.new }
{
    output.put(&[b'K', code, count]);
    for (party, views) in (0..count).zip(parties) {
        put_party(output, party, views);
    }
    output.put(b"Z");
}

// Writes the machine file of the first parties at the output's front.
pub fn write_machines(code: u8, count: u8, parties: &[PartyViews], output: &mut [u8])
    requires within { count ≤ length parties.now }
    requires room { length (tables_file code count (tables_in parties.now)) ≤ length output.old }
    ensures tables { output.new ≡ put output.old 0 (tables_file code count (tables_in parties.now)) }
    ensures charts { (f : Charts) → Shown f count (tables_in parties.now) → output.new ≡ put output.old 0 (machine_file_bytes code count f) }
{
    put_machines(&mut Output::new(output), code, count, parties);
}
