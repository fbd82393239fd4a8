// The RM3 table, record by record. While it is written it has at most 3,168 records: the bounds 3,900 and 4,000 of the contracts are
// above that, and keep every operand within 16 bits.
ghost use Rattle.std.specs.Prelude.{◌≡◌, false, ◌+◌, ◌*◌, ◌≤◌, ◌<◌, length, IsTrue, ◌↔◌};
ghost use Rattle.majority.specs.Edge.{node_of};
ghost use Rattle.majority.specs.Table.{Below};
ghost use Rattle.translation.specs.Translate.{after, class_of, needs_helper, place as place_of, gate3};
ghost use Rattle.tables.specs.Bytes.{holding, put_record};
ghost use Rattle.tables.specs.Sound.{Fresh};
ghost use Rattle.tables.specs.Written.{after_reply};
ghost use Rattle.rm3.specs.Calls.{rm3_in, length_in};
ghost use Rattle.rm3.specs.inner.Laid.{made_of, Places, GoesOn, Writes, Gone, Put, outputs_put};

use majority::{GATE, INPUT, Record, node};
use refusals::Refusal;
use tables::{SoundTable, put_record};
use translation::{Mode, in_order, operation, output, output_helped, pattern_of};

// An RM3 table as it is written to a buffer, from its first record on.
#[derive(Drop)]
struct Writer<'a> {
    mode: Mode,
    // The operand of each node so far, and of each node's helper, 0 where it has none.
    operands: &'a mut [u16; 1057],
    helpers: &'a mut [u16; 1057],
    // How many records there are so far.
    at: u16,
    out: &'a mut [u8],
}

impl<'a> Writer<'a> {
    // Puts a record behind those so far.
    fn put(&mut self, r: Record)
        requires { self.old.at ≤ 4000 }
        ensures on { GoesOn self.old self.new }
        ensures operands { self.new.operands.now ≡ self.old.operands.now }
        ensures helpers { self.new.helpers.now ≡ self.old.helpers.now }
        ensures at { self.new.at ≡ self.old.at + 1 }
        ensures bytes { self.new.out.now ≡ put_record self.old.out.now self.old.at r }
    {
        put_record(self.out, self.at as usize, r);
        self.at += 1;
    }

    // The operand of an edge. Where it needs a helper and none serves again, one is put, of this block.
    fn place(&mut self, edge: u16, middle: bool, helped: bool, block: u8) -> u16
        requires { (node_of edge < 1057) × (helped ≡ needs_helper middle (class_of edge)) × (self.old.at ≤ 4000) }
        ensures on { GoesOn self.old self.new }
        ensures operands { self.new.operands.now ≡ self.old.operands.now }
        ensures places { Places (place_of self.old.mode block middle self.old.operands.now edge) self.old.at result self.new.at self.old.helpers.now self.new.helpers.now self.old.out.now self.new.out.now }
    {
        let k = node(edge);
        if k == 0 {
            return if middle { 1 - edge } else { edge };
        }
        let operand = self.operands[k as usize];
        if !helped {
            return operand;
        }
        let known = match self.mode {
            Mode::Anew => 0,
            Mode::Once => self.helpers[k as usize],
        };
        if known != 0 {
            return known;
        }
        let made = self.at + 2;
        self.helpers[k as usize] = made;
        self.put(operation(block, 0, operand, 1));
        made
    }

    // Puts the helpers and the operation of a gate.
    #[tactic(auto, using(translation::proofs::PatternTable::pattern_helped, crate::proofs::GateLaid::gate_writes), unfolding(translation::specs::Patterns::pattern_by))]
    fn put_gate(&mut self, gate: Record)
        requires { Below 1057 gate × (self.old.at ≤ 3900) }
        ensures on { GoesOn self.old self.new }
        ensures operands { self.new.operands.now ≡ self.old.operands.now }
        ensures writes { Writes (gate3 self.old.mode self.old.operands.now gate) self.old.at self.new.at self.old.helpers.now self.new.helpers.now self.old.out.now self.new.out.now }
    {
        let p = pattern_of(gate);
        let b = gate.block;
        let first = self.place(gate.e1, p.middle == 1, p.first, b);
        let second = self.place(gate.e2, p.middle == 2, p.second, b);
        let third = self.place(gate.e3, p.middle == 3, p.third, b);
        self.put(in_order(b, p.middle, first, second, third));
    }

    // Puts what stands for a node.
    fn put_node(&mut self, r: Record)
        requires { Below 1057 r × (self.old.at ≤ 3900) }
        ensures on { GoesOn self.old self.new }
        ensures operands { self.new.operands.now ≡ self.old.operands.now }
        ensures writes { Writes (λ d. after self.old.mode self.old.operands.now d r) self.old.at self.new.at self.old.helpers.now self.new.helpers.now self.old.out.now self.new.out.now }
    {
        match r.kind {
            GATE => self.put_gate(r),
            INPUT => self.put(Record {
                kind: INPUT,
                ..Record::BLANK
            }),
            _ => {}
        }
    }

    // Puts what stands for the inputs and gates, and sets their operands.
    #[tactic(auto, using(crate::proofs::NodePass::gone_start))]
    fn put_nodes(&mut self, table: &SoundTable<'_>)
        requires { Fresh 0 self.old.operands.now × Fresh 0 self.old.helpers.now × (self.old.at ≡ 0) }
        ensures on { GoesOn self.old self.new }
        ensures gone { Gone self.old.mode table.now.counts table.now.records self.old.out.now (table.now.counts.inputs + table.now.counts.gates) self.new.at self.new.operands.now self.new.helpers.now self.new.out.now }
    {
        let counts = table.counts();
        for i in 0..counts.inputs + counts.gates {
            self.put_node(table.record(i));
            self.operands[i + 1] = self.at + 1;
        }
    }

    // Puts the helpers of the outputs, and notes the operand of each.
    #[tactic(auto, using(crate::proofs::OutputPass::naming_start))]
    fn put_helpers(&mut self, table: &SoundTable<'_>, named: &mut [u16; 32])
        requires { (length named.old ≡ 32) × Gone self.old.mode table.now.counts table.now.records self.old.out.now (table.now.counts.inputs + table.now.counts.gates) self.old.at self.old.operands.now self.old.helpers.now self.old.out.now }
        ensures on { GoesOn self.old self.new }
        ensures put { Put self.old.mode table.now.counts table.now.records self.old.out.now self.new.at named.new self.new.out.now }
    {
        for j in 0..table.counts().outputs {
            let edge = table.output(j);
            named[j] = self.place(edge, false, output_helped(edge), 0);
        }
    }

    // Puts an output for each of these operands.
    #[tactic(auto, unfolding(crate::specs::inner::Laid::outputs_put))]
    fn put_outputs(&mut self, named: &[u16])
        requires { (length named.now ≤ 32) × (self.old.at ≤ 3900) }
        ensures on { GoesOn self.old self.new }
        ensures at { self.new.at ≡ self.old.at + length named.now }
        ensures bytes { self.new.out.now ≡ outputs_put named.now self.old.at (length named.now) self.old.out.now }
    {
        for operand in named {
            self.put(output(*operand));
        }
    }
}

// Puts the RM3 table, as far as there is room, and answers how many records it has. Where there is no room for a record none is put, so
// that an empty buffer serves to count them.
#[tactic(auto, using(crate::proofs::NodePass::gone_from_here))]
fn put_table(mode: Mode, table: &SoundTable<'_>, out: &mut [u8]) -> usize
    ensures records { result ≡ length (made_of mode table.now) }
    ensures bytes { 8 * length (made_of mode table.now) ≤ length out.old → out.new ≡ holding (made_of mode table.now) out.old }
{
    let mut operands = [0u16; 1057];
    let mut helpers = [0u16; 1057];
    let mut named = [0u16; 32];
    let mut writer = Writer {
        mode,
        operands: &mut operands,
        helpers: &mut helpers,
        at: 0,
        out,
    };
    writer.put_nodes(table);
    writer.put_helpers(table, &mut named);
    writer.put_outputs(&named[..table.counts().outputs]);
    writer.at as usize
}

// The RM3 table has room in so many bytes. It has at most three operations a gate and one an output, and is counted only where these would
// have no room.
#[tactic(auto, using(crate::proofs::FitsBuffer::fitting_most, crate::proofs::FitsBuffer::fitting_size))]
fn has_room(mode: Mode, table: &SoundTable<'_>, room: usize) -> bool
    ensures { IsTrue result ↔ (8 * length (made_of mode table.now) ≤ room) }
{
    let counts = table.counts();
    if 8 * (counts.inputs + 3 * counts.gates + 2 * counts.outputs) <= room {
        return true;
    }
    let mut none = [0u8; 0];
    8 * put_table(mode, table, &mut none) <= room
}

// Writes the RM3 table, where there is room, and answers its length.
pub(crate) fn write(mode: Mode, table: &SoundTable<'_>, out: &mut [u8]) -> Result<usize, Refusal>
    ensures reply { result ≡ length_in mode (length out.old) table.now.records table.now.counts }
    ensures bytes { out.new ≡ after_reply (rm3_in mode (length out.old) table.now.records table.now.counts) out.old }
{
    if has_room(mode, table, out.len()) {
        return Ok(8 * put_table(mode, table, out));
    }
    Err(Refusal::Room)
}
