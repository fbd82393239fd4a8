// The rules' edits of a table that was checked: each leaves its rule's table in the slice, and the rest as it was.
ghost use Rattle.std.specs.Prelude.{◌≡◌, ◌+◌, ◌≤◌, false};
ghost use Rattle.majority.specs.Edit.{redirect_all};
ghost use Rattle.rules.specs.Rules.{exchange as exchange_rule, associativity as associativity_rule, outward as outward_rule, inward as inward_rule, inversion as inversion_rule};
ghost use Rattle.rules.specs.Step.{is_sweep};
ghost use Rattle.tables.specs.Sound.{table_in};
ghost use Rattle.tables.specs.Bytes.{holding};
ghost use Rattle.rewriting.specs.inner.Applied.{changed};
ghost use Rattle.rewriting.specs.inner.Fitting.{AtGate, Room, Fitting};

use crate::applying::Change;
use crate::nodes::{named_record, node_record, place, plain, records};
use crate::voting::vote;
use editing::{insert, redirect};
use majority::{Counts, flipped};
use rules::{
    Rule, associativity_gate, associativity_new, exchanged, inverted_gate, inward_gate, inward_new,
    outward_first, outward_gate, outward_second,
};
use tables::{SoundTable, put_record};

#[tactic(auto, using(crate::proofs::RuleBytes::put_holding), unfolding(rules::specs::Rules::exchange))]
fn exchange(s: &mut [u8], counts: Counts, gate: u16, a: u16)
    requires { AtGate s.old counts gate }
    ensures { s.new ≡ holding (exchange_rule a gate (table_in s.old counts)) s.old }
{
    let r = node_record(&SoundTable { bytes: s, counts }, gate);
    put_record(s, place(gate), exchanged(a, r));
}

// Redirects the gate to an edge.
#[tactic(auto, using(crate::proofs::RuleBytes::redirect_holding))]
fn redirect_gate(s: &mut [u8], counts: Counts, gate: u16, edge: u16)
    requires { AtGate s.old counts gate }
    ensures { s.new ≡ holding (redirect_all gate edge (table_in s.old counts)) s.old }
{
    redirect(s, gate as usize, records(counts), gate, edge);
}

#[tactic(auto, using(crate::proofs::RuleBytes::insert_then_put), unfolding(rules::specs::Rules::associativity))]
fn associativity(s: &mut [u8], counts: Counts, gate: u16)
    requires at { AtGate s.old counts gate }
    requires room { Room 1 s.old counts }
    ensures { s.new ≡ holding (associativity_rule gate (table_in s.old counts)) s.old }
{
    let table = SoundTable { bytes: s, counts };
    let r = node_record(&table, gate);
    let h = named_record(&table, r.e3);
    insert(s, records(counts), gate, &[associativity_new(r, h)]);
    put_record(s, gate as usize, associativity_gate(r, h, plain(gate)));
}

#[tactic(auto, using(crate::proofs::RuleBytes::insert_then_put), unfolding(rules::specs::Rules::outward))]
fn outward(s: &mut [u8], counts: Counts, gate: u16)
    requires at { AtGate s.old counts gate }
    requires room { Room 2 s.old counts }
    ensures { s.new ≡ holding (outward_rule gate (table_in s.old counts)) s.old }
{
    let table = SoundTable { bytes: s, counts };
    let r = node_record(&table, gate);
    let h = named_record(&table, r.e3);
    let news = [outward_first(r, h), outward_second(r, h)];
    insert(s, records(counts), gate, &news);
    let new = outward_gate(r, plain(gate), plain(gate + 1), h);
    put_record(s, gate as usize + 1, new);
}

#[tactic(auto, using(crate::proofs::RuleBytes::insert_then_put), unfolding(rules::specs::Rules::inward))]
fn inward(s: &mut [u8], counts: Counts, gate: u16)
    requires at { AtGate s.old counts gate }
    requires room { Room 1 s.old counts }
    ensures { s.new ≡ holding (inward_rule gate (table_in s.old counts)) s.old }
{
    let table = SoundTable { bytes: s, counts };
    let r = node_record(&table, gate);
    let p = named_record(&table, r.e1);
    let q = named_record(&table, r.e2);
    insert(s, records(counts), gate, &[inward_new(r, p, q)]);
    put_record(s, gate as usize, inward_gate(r, p, plain(gate)));
}

#[tactic(auto, using(crate::proofs::RuleBytes::redirect_then_put), unfolding(rules::specs::Rules::inversion))]
fn inversion(s: &mut [u8], counts: Counts, gate: u16)
    requires { AtGate s.old counts gate }
    ensures { s.new ≡ holding (inversion_rule gate (table_in s.old counts)) s.old }
{
    let r = node_record(&SoundTable { bytes: s, counts }, gate);
    redirect_gate(s, counts, gate, flipped(plain(gate)));
    put_record(s, place(gate), inverted_gate(r));
}

// Edits by a change that fits, of a rule other than sweep.
#[tactic(auto, using(crate::proofs::Gate::fit_gate, rules::proofs::AcceptedStep::voter_field), unfolding(rules::specs::Step::has_form, rules::specs::Step::rewritten, rules::specs::Rules::majority_rule, rules::specs::Rules::share, rules::specs::Rules::opposite))]
pub(crate) fn edit(s: &mut [u8], counts: Counts, change: Change)
    requires fits { Fitting s.old counts change }
    requires other { is_sweep change.rule ≡ false }
    ensures { s.new ≡ holding (changed s.old counts change) s.old }
{
    let Change { rule, gate, a, b } = change;
    let r = node_record(&SoundTable { bytes: s, counts }, gate);
    match rule {
        Rule::Exchange => exchange(s, counts, gate, a),
        Rule::Majority => redirect_gate(s, counts, gate, r.e1),
        Rule::Associativity => associativity(s, counts, gate),
        Rule::Outward => outward(s, counts, gate),
        Rule::Inward => inward(s, counts, gate),
        Rule::Inversion => inversion(s, counts, gate),
        Rule::Share => redirect_gate(s, counts, gate, plain(a)),
        Rule::Sweep => {}
        Rule::Voter => vote(s, counts, gate, a, b),
        Rule::Opposite => redirect_gate(s, counts, gate, r.e3),
    }
}
