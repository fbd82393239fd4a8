// Whether a gate has the form that its rule asks for.
ghost use Rattle.std.specs.Prelude.{◌≡◌, true};
ghost use Rattle.rules.specs.Step.{fields_fit, has_form};

use crate::applying::Change;
use crate::nodes::{named_record, node_record};
use crate::voting::voter_form;
use rules::{
    Rule, associativity_form, inward_form, majority_form, opposite_form, outward_form, share_form,
};
use tables::SoundTable;

// The gate has the rule's form, of a table that was checked and fields that fit. The rules that ask for none are exchange, inversion and sweep.
#[tactic(auto, using(rules::proofs::AcceptedStep::voter_field), unfolding(rules::specs::Step::has_form))]
pub(crate) fn has_form(table: &SoundTable<'_>, change: Change) -> bool
    requires { fields_fit table.now.counts.inputs table.now.counts.gates change.rule change.gate change.a change.b ≡ true }
    ensures { result ≡ has_form table.now.counts.inputs table.now.records change.rule change.gate change.a change.b }
{
    let inputs = table.counts().inputs;
    let Change { rule, gate, a, b } = change;
    let r = node_record(table, gate);
    match rule {
        Rule::Exchange | Rule::Inversion | Rule::Sweep => true,
        Rule::Majority => majority_form(r),
        Rule::Associativity => associativity_form(inputs, r, named_record(table, r.e3)),
        Rule::Outward => outward_form(inputs, r),
        Rule::Inward => inward_form(
            inputs,
            r,
            named_record(table, r.e1),
            named_record(table, r.e2),
        ),
        Rule::Share => share_form(r, node_record(table, a)),
        Rule::Voter => voter_form(table, gate, a, b),
        Rule::Opposite => opposite_form(r),
    }
}
