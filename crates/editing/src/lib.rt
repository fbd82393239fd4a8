// Moving and changing the records of a lent slice. Each function is total: where the slice has no room for what is asked, nothing changes.
#![tactic(auto)]

ghost use Rattle.std.specs.Prelude.{◌≡◌, ◌+◌, ◌*◌, ◌≤◌, length};
ghost use Rattle.majority.specs.Edge.{redirect as redirect_edge};
ghost use Rattle.majority.specs.Table.{record_at};
ghost use Rattle.majority.specs.Edit.{edges};
ghost use Rattle.tables.specs.Bytes.{records_of, put_record};
ghost use Rattle.editing.specs.Edited.{names_node, raise16, no_room_of, redirected_from, inserted_at, room_at, cleared_from};

use majority::{Record, node, redirected};
use tables::{put_record, record_at};

fn redirected_record(from: u16, to: u16, r: Record) -> Record
    ensures { result ≡ edges (redirect_edge from to) r }
{
    Record {
        e1: redirected(from, to, r.e1),
        e2: redirected(from, to, r.e2),
        e3: redirected(from, to, r.e3),
        ..r
    }
}

// An edge of the record names the node.
pub fn names(k: u16, r: Record) -> bool
    ensures { result ≡ names_node k r }
{
    (node(r.e1) == k) | (node(r.e2) == k) | (node(r.e3) == k)
}

// Redirects a node to an edge, in the records of s from `first` on, up to n. Not inlined, so that its loop keeps all it needs in registers.
#[inline(never)]
#[tactic(auto, using(crate::proofs::Loops::edit_end), unfolding(crate::specs::Edited::edited_from))]
pub fn redirect(s: &mut [u8], first: usize, n: usize, from: u16, to: u16)
    ensures { s.new ≡ redirected_from s.old first n from to }
{
    if (s.len() / 8 < n) | (n < first) {
        return;
    }
    for i in first..n {
        let r = record_at(s, i);
        if names(from, r) {
            put_record(s, i, redirected_record(from, to, r));
        }
    }
}

// An edge after c gates were put directly before node g.
#[tactic(auto, unfolding(crate::specs::Edited::raise16, majority::specs::Edge::raise))]
fn raised(g: u16, c: u16, edge: u16) -> u16
    ensures { result ≡ raise16 g c edge }
{
    if node(edge) < g {
        return edge;
    }
    edge.wrapping_add(c.wrapping_add(c))
}

// By how many gates a kind and its block rise: 0. The backend does not see that, and so raises them, as one field, and the three edges at once.
fn unraised(g: u16) -> u16
    ensures { result ≡ 0 }
{
    let k = g as usize;
    (k / 2 + (k + 1) / 2 - k) as u16
}

#[tactic(auto, using(crate::proofs::Changed::raise_none))]
fn raised_record(g: u16, c: u16, r: Record) -> Record
    ensures { result ≡ edges (raise16 g c) r }
{
    let head = raised(g, unraised(g), u16::from_le_bytes([r.kind, r.block]));
    let [kind, block] = head.to_le_bytes();
    Record {
        kind,
        block,
        e1: raised(g, c, r.e1),
        e2: raised(g, c, r.e2),
        e3: raised(g, c, r.e3),
    }
}

// Moves record i up by k places, renumbered.
#[tactic(auto, using(crate::proofs::Changed::raise_wrapped))]
fn move_up(s: &mut [u8], i: usize, g: u16, k: usize)
    requires { 8 * (i + k) ≤ length s.old }
    ensures { s.new ≡ put_record s.old (i + k) (edges (raise16 g k) (record_at (records_of s.old) i)) }
{
    let r = record_at(s, i);
    put_record(s, i + k, raised_record(g, (k % 65536) as u16, r));
}

// Of `all` records n are a table: there is no place directly before its node g, or no room for k more.
#[tactic(auto, unfolding(crate::specs::Edited::no_room_of))]
fn no_room(all: usize, n: usize, g: u16, k: usize) -> bool
    ensures { result ≡ no_room_of all n g k }
{
    g < 1 || all < n || all - n < k || n < usize::from(g) - 1
}

// Makes room for k gates directly before node g, among n records: from the last down, each moves up by k places and is renumbered. Four move in a turn,
// which the backend leaves as it is.
#[tactic(auto, using(crate::proofs::Loops::no_move, crate::proofs::Loops::has_room, crate::proofs::Loops::move_end))]
pub fn make_room(s: &mut [u8], n: usize, g: u16, k: usize)
    ensures { s.new ≡ room_at s.old n g k }
{
    if no_room(s.len() / 8, n, g, k) {
        return;
    }
    let place = g as usize - 1;
    let moved = n - place;
    let mut done = 0;
    while done + 3 < moved {
        done += 4;
        let i = n - done;
        move_up(s, i + 3, g, k);
        move_up(s, i + 2, g, k);
        move_up(s, i + 1, g, k);
        move_up(s, i, g, k);
    }
    while done < moved {
        done += 1;
        move_up(s, n - done, g, k);
    }
}

// Inserts gates directly before node g, among n records, one after the other.
#[tactic(auto, using(crate::proofs::Loops::has_room, crate::proofs::Inserted::placing_end), unfolding(crate::specs::Edited::inserted_at))]
pub fn insert(s: &mut [u8], n: usize, g: u16, gates: &[Record])
    ensures { s.new ≡ inserted_at s.old n g gates.now }
{
    if no_room(s.len() / 8, n, g, gates.len()) {
        return;
    }
    make_room(s, n, g, gates.len());
    for (i, gate) in gates.iter().enumerate() {
        put_record(s, g as usize - 1 + i, *gate);
    }
}

// Clears the records from `first` on, up to n.
#[tactic(auto, using(crate::proofs::Loops::edit_end), unfolding(crate::specs::Edited::edited_from))]
pub fn clear(s: &mut [u8], first: usize, n: usize)
    ensures { s.new ≡ cleared_from s.old first n }
{
    if (s.len() / 8 < n) | (n < first) {
        return;
    }
    for i in first..n {
        put_record(s, i, Record::BLANK);
    }
}
