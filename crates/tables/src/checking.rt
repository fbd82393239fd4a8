// The check: one pass over the kinds, one over the fields.
ghost use Rattle.std.specs.Prelude.{ℕ, true, false, Ok, ◌≡◌, ◌+◌, ◌-◌, ◌*◌, ◌≤◌, length};
ghost use Rattle.majority.specs.Seek.{first_from, first};
ghost use Rattle.majority.specs.Check.{bad_counts, not_zero, past, first_of, bad_edge, faulty, fault_of, faulty_at, check_fields, check_kinds};
ghost use Rattle.tables.specs.Bytes.{table_of};
ghost use Rattle.tables.specs.inner.Runs.{run_end, record_checked, run_checked};
ghost use Rattle.tables.specs.Claimed.{other_counts, check_counted};
ghost use Rattle.tables.specs.inner.Under.{check_used};

use crate::records::record_as;
use majority::{Counts, GATE, INPUT, MOST_GATES, MOST_INPUTS, MOST_OUTPUTS, OUTPUT, Record};
use refusals::Refusal;

// The first record from `from` on, of n records, that is of another kind; n where there is none.
#[tactic(auto, using(crate::proofs::Decoded::table_at, majority::proofs::Seek::seek_stop, majority::proofs::Seek::seek_next, majority::proofs::Seek::seek_end), unfolding(crate::specs::inner::Runs::run_end, crate::specs::inner::Runs::other_kind))]
fn run_end(s: &[u8], from: usize, n: usize, kind: u8) -> usize
    requires { (8 * n ≤ length s.now) × (from ≤ n) }
    ensures { result ≡ run_end (table_of s.now n) n kind from }
{
    for i in from..n {
        if s[8 * i] != kind {
            return i;
        }
    }
    n
}

// A count is past its limit, or there is no output.
fn bad_counts(c: Counts) -> bool
    ensures { result ≡ bad_counts c }
{
    (MOST_INPUTS < c.inputs) | (MOST_GATES < c.gates) | (MOST_OUTPUTS < c.outputs) | (c.outputs < 1)
}

// A field that must be zero is not.
fn not_zero(r: Record) -> bool
    ensures { result ≡ not_zero r }
{
    if r.kind == INPUT {
        return (r.block != 0) | (r.e1 != 0) | (r.e2 != 0) | (r.e3 != 0);
    }
    if r.kind == GATE {
        return false;
    }
    (r.block != 0) | (r.e2 != 0) | (r.e3 != 0)
}

// The edge names a node past last.
fn names_past(last: usize, edge: u16) -> bool
    requires { 2 * last + 1 ≤ 18446744073709551615 }
    ensures { result ≡ past last edge }
{
    2 * last + 1 < edge as usize
}

// Which of three tests is the first that holds, counted from 1; 0 where none does.
fn first_of(a: bool, b: bool, c: bool) -> u32
    ensures { result ≡ first_of a b c }
{
    if a {
        return 1;
    }
    if b {
        return 2;
    }
    if c {
        return 3;
    }
    0
}

// Which edge of record i names a node it may not, in a table whose last node is last: the first, counted from 1; 0 where none does.
fn bad_edge(last: usize, i: usize, r: Record) -> u32
    requires { (2 * last + 1 ≤ 18446744073709551615) × (2 * i + 1 ≤ 18446744073709551615) }
    ensures { result ≡ bad_edge last i r }
{
    if r.kind == INPUT {
        return 0;
    }
    if r.kind == GATE {
        return first_of(
            names_past(i, r.e1),
            names_past(i, r.e2),
            names_past(i, r.e3),
        );
    }
    first_of(names_past(last, r.e1), false, false)
}

// Refusals 4 and 5 of record i, in a table whose last node is last.
#[tactic(auto, unfolding(crate::specs::inner::Runs::record_checked, majority::specs::Check::faulty, majority::specs::Check::fault_of))]
fn check_record(last: usize, i: usize, r: Record) -> Result<(), Refusal>
    requires { (2 * last + 1 ≤ 18446744073709551615) × (2 * i + 1 ≤ 18446744073709551615) }
    ensures { result ≡ record_checked last i r }
{
    let filled = not_zero(r);
    let edge = bad_edge(last, i, r);
    if filled {
        return Err(Refusal::NotZero(i));
    }
    if 0 < edge {
        return Err(Refusal::Edge(i, edge));
    }
    Ok(())
}

// Refusals 4 and 5 of the records from `from` on, up to `to`, as ones of this kind.
#[tactic(auto, using(majority::proofs::Seek::seek_stop, majority::proofs::Seek::seek_next, majority::proofs::Seek::seek_end, crate::proofs::Faults::record_fails, crate::proofs::Faults::record_passes, crate::proofs::Faults::run_stop, crate::proofs::Faults::run_pass))]
fn check_run(s: &[u8], from: usize, to: usize, kind: u8, last: usize) -> Result<(), Refusal>
    requires { (8 * to ≤ length s.now) × (from ≤ to) × (2 * last + 1 ≤ 18446744073709551615) }
    ensures { result ≡ run_checked s.now kind last from to }
{
    for i in from..to {
        check_record(last, i, record_as(s, i, kind))?;
    }
    Ok(())
}

// A gate, which is record i, reads lower nodes alone.
#[tactic(auto, unfolding(majority::specs::Check::faulty))]
fn reads_lower(i: usize, gate: Record) -> bool
    requires { (2 * i + 1 ≤ 18446744073709551615) × (gate.kind ≡ 2) }
    ensures { result ≡ true → (last : ℕ) → faulty last i gate ≡ false }
{
    !names_past(i, gate.e1) & !names_past(i, gate.e2) & !names_past(i, gate.e3)
}

// The first gate from `from` on, up to `to`, that reads another node than lower ones, or `to`: none before it has a fault.
#[tactic(auto, using(majority::proofs::Seek::seek_next))]
fn first_not_lower(s: &[u8], from: usize, to: usize) -> usize
    requires { (8 * to ≤ length s.now) × (from ≤ to) }
    ensures within { (from ≤ result) × (result ≤ to) }
    ensures faults { (last : ℕ) → run_checked s.now 2 last from to ≡ run_checked s.now 2 last result to }
{
    for i in from..to {
        if !reads_lower(i, record_as(s, i, GATE)) {
            return i;
        }
    }
    to
}

// Refusals 4 and 5 of the gates from `from` on, up to `to`: what takes the check's time is the search for the first that may have one.
fn check_gates(s: &[u8], from: usize, to: usize, last: usize) -> Result<(), Refusal>
    requires { (8 * to ≤ length s.now) × (from ≤ to) × (2 * last + 1 ≤ 18446744073709551615) }
    ensures { result ≡ run_checked s.now 2 last from to }
{
    let fault = first_not_lower(s, from, to);
    check_run(s, fault, to, GATE, last)
}

// Refusals 4 and 5 of n records with these counts: a loop for each kind.
#[tactic(auto, using(crate::proofs::Faults::all_records, crate::proofs::Faults::runs_checked))]
fn check_fields(s: &[u8], n: usize, counts: Counts) -> Result<Counts, Refusal>
    requires { (8 * n ≤ length s.now) × (check_kinds (table_of s.now n) ≡ Ok counts) }
    ensures { result ≡ check_fields counts (table_of s.now n) }
{
    let last = counts.inputs + counts.gates;
    check_run(s, 0, counts.inputs, INPUT, last)?;
    check_gates(s, counts.inputs, last, last)?;
    check_run(s, last, n, OUTPUT, last)?;
    Ok(counts)
}

// Refusal 2 of the n records of s, or their counts.
#[tactic(auto, using(crate::proofs::Runs::run_at_most, crate::proofs::Runs::runs_stop, crate::proofs::Decoded::length_table, crate::proofs::Runs::runs_pass))]
fn check_kinds(s: &[u8], n: usize) -> Result<Counts, Refusal>
    requires { 8 * n ≤ length s.now }
    ensures { result ≡ check_kinds (table_of s.now n) }
{
    let inputs = run_end(s, 0, n, INPUT);
    let nodes = run_end(s, inputs, n, GATE);
    let end = run_end(s, nodes, n, OUTPUT);
    if end < n {
        return Err(Refusal::Kind(end));
    }
    Ok(Counts {
        inputs,
        gates: nodes - inputs,
        outputs: n - nodes,
    })
}

// The counts found are not those claimed.
fn other_counts(claim: Counts, found: Counts) -> bool
    ensures { result ≡ other_counts claim found }
{
    claim != found
}

// Refusals 3 to 5 of n records with the counts found, for which others may be claimed.
#[tactic(auto, unfolding(crate::specs::Claimed::check_counted))]
fn check_counted(s: &[u8], n: usize, claim: Counts, found: Counts) -> Result<Counts, Refusal>
    requires { (8 * n ≤ length s.now) × (check_kinds (table_of s.now n) ≡ Ok found) }
    ensures { result ≡ check_counted claim (table_of s.now n) found }
{
    let bad = bad_counts(found);
    let other = other_counts(claim, found);
    if bad | other {
        return Err(Refusal::Count);
    }
    check_fields(s, n, found)
}

// Refusals 1 to 5 of the first used bytes of s, and 3 where other counts are claimed.
#[tactic(auto, unfolding(crate::specs::inner::Under::check_used, crate::specs::inner::Under::check_under))]
pub(crate) fn check_used(s: &[u8], used: usize, claim: Option<Counts>) -> Result<Counts, Refusal>
    ensures { result ≡ check_used s.now used claim }
{
    if (used % 8 != 0) | (s.len() < used) {
        return Err(Refusal::Length);
    }
    let n = used / 8;
    let found = check_kinds(s, n)?;
    check_counted(s, n, claim.unwrap_or(found), found)
}
