// Following the gates of a first table through steps. A place holds the edge that has a gate's first value, or 0 where the gate was swept away.
ghost use Rattle.std.specs.Prelude.{◌≡◌, ◌+◌, ◌<◌, ◌≤◌, length};
ghost use Rattle.majority.specs.Edge.{node_of};
ghost use Rattle.tables.specs.Places.{in_places};
ghost use Rattle.rewriting.specs.Follow.{first_places};
ghost use Rattle.rewriting.specs.inner.ClosedUp.{Lower};
ghost use Rattle.rewriting.specs.inner.Places.{Places, edited_edge, left_by};

use crate::nodes::plain;
use crate::sweeping::renumbered;
use majority::{flipped, node};

// Puts the edge to each gate into its place.
#[tactic(auto, using(tables::proofs::InPlaces::places_none, tables::proofs::InPlaces::places_turn))]
pub(crate) fn start(places: &mut [u16], inputs: usize)
    requires { inputs + length places.old ≤ 1056 }
    ensures { places.new ≡ first_places inputs (length places.old) places.old }
{
    for (i, place) in places.iter_mut().enumerate() {
        *place = plain((inputs + 1 + i) as u16);
    }
}

// What becomes of an edge where `more` gates are put before the gate, or where the gate is inverted.
#[tactic(auto, unfolding(crate::specs::inner::Places::edited_edge))]
fn edited(gate: u16, more: u16, inverts: bool, edge: u16) -> u16
    requires few { more ≤ 1024 }
    requires named { node_of edge ≤ 1056 }
    ensures { result ≡ edited_edge gate more inverts edge }
{
    if node(edge) < gate {
        return edge;
    }
    if inverts & (node(edge) == gate) {
        return flipped(edge);
    }
    edge + 2 * more
}

// The same of the places. Most rules leave them all.
#[tactic(auto, using(tables::proofs::InPlaces::places_none, tables::proofs::InPlaces::places_length, tables::proofs::InPlaces::place_left, tables::proofs::InPlaces::places_turn))]
pub(crate) fn edit_places(places: &mut [u16], gate: u16, more: u16, inverts: bool)
    requires few { more ≤ 1024 }
    requires within { Places 0 1056 (length places.old) places.old }
    ensures { places.new ≡ in_places (λ g e. edited_edge gate more inverts e) 0 (length places.old) places.old }
{
    if !inverts & (more == 0) {
        return;
    }
    for place in places {
        *place = edited(gate, more, inverts, *place);
    }
}

// What becomes of an edge where the gates that stay close up, numbered so.
#[tactic(auto, unfolding(crate::specs::inner::Places::left_by))]
fn left(numbers: &[u16; 1057], edge: u16) -> u16
    requires named { node_of edge < 1057 }
    requires lower { Lower numbers.now }
    ensures { result ≡ left_by numbers.now edge }
{
    if numbers[node(edge) as usize] == 0 {
        return 0;
    }
    renumbered(numbers, edge)
}

// The same of the places.
#[tactic(auto, using(tables::proofs::InPlaces::places_none, tables::proofs::InPlaces::places_length, tables::proofs::InPlaces::place_left, tables::proofs::InPlaces::places_turn))]
pub(crate) fn sweep_places(places: &mut [u16], numbers: &[u16; 1057])
    requires lower { Lower numbers.now }
    requires within { Places 0 1056 (length places.old) places.old }
    ensures { places.new ≡ in_places (λ g e. left_by numbers.now e) 0 (length places.old) places.old }
{
    for place in places {
        *place = left(numbers, *place);
    }
}
