// The catalogue of three-input functions: for the number of each a table that computes it.
#![tactic(auto)]

mod entries;

ghost use Rattle.std.specs.Prelude.{◌≡◌, ◌*◌, ◌≤◌, ◌<◌, length};
ghost use Rattle.majority.specs.Table.{record_at};
ghost use Rattle.tables.specs.Bytes.{holding};
ghost use Rattle.catalogue.specs.Networks.{digit as digit_of, entry_of, network_of};
ghost use Rattle.catalogue.specs.Calls.{catalogue_of, catalogue_bytes};

use entries::ENTRIES;
use majority::{GATE, INPUT, OUTPUT, Record};
use refusals::Refusal;
use tables::put_record;

// The highest number of a function: bit k is its value under the assignment k, of which there are eight.
pub const HIGHEST: u32 = 255;

// The most bytes that a table of the catalogue has: three inputs, seven gates and an output.
pub const MOST_BYTES: usize = 88;

// Hexadecimal digit k of an entry, the lowest being digit 0.
#[tactic(auto, using(crate::proofs::NetworkRecords::digit_past), unfolding(crate::specs::Networks::digit))]
fn digit(entry: u64, k: usize) -> u16
    ensures digit { result ≡ digit_of entry k }
    ensures low { result < 16 }
{
    if 16 <= k {
        return 0;
    }
    ((entry >> (4 * k)) % 16) as u16
}

// The entry of a function.
#[tactic(auto, unfolding(crate::specs::Networks::entry_of, crate::specs::Entries::entries))]
fn entry_of(number: u32) -> u64
    requires { number ≤ 255 }
    ensures { result ≡ entry_of number }
{
    ENTRIES[number as usize]
}

// How many records an entry's table has.
#[tactic(auto, using(crate::proofs::NetworkRecords::network_length))]
fn records(entry: u64) -> usize
    ensures records { result ≡ length (network_of entry) }
    ensures few { result < 20 }
{
    digit(entry, 0) as usize + 4
}

// Record i of an entry's table. Of its gates the last has the lowest digits.
#[tactic(auto, using(crate::proofs::NetworkRecords::input_record, crate::proofs::NetworkRecords::output_record, crate::proofs::NetworkRecords::gate_record))]
fn record_of(entry: u64, i: usize) -> Record
    requires { i < length (network_of entry) }
    ensures { result ≡ record_at (network_of entry) i }
{
    if i < 3 {
        return Record {
            kind: INPUT,
            ..Record::BLANK
        };
    }
    let behind = records(entry) - 1 - i;
    if behind == 0 {
        return Record {
            kind: OUTPUT,
            e1: digit(entry, 1),
            ..Record::BLANK
        };
    }
    Record {
        kind: GATE,
        block: 0,
        e1: digit(entry, 3 * behind + 1),
        e2: digit(entry, 3 * behind),
        e3: digit(entry, 3 * behind - 1),
    }
}

// Writes an entry's table, for which there is room.
fn write(entry: u64, out: &mut [u8])
    requires { 8 * length (network_of entry) ≤ length out.old }
    ensures { out.new ≡ holding (network_of entry) out.old }
{
    for i in 0..records(entry) {
        put_record(out, i, record_of(entry, i));
    }
}

// Writes the table of the function with this number to the beginning of out, and answers its length.
#[tactic(auto, unfolding(crate::specs::Calls::network_in, crate::specs::Calls::catalogue_of, crate::specs::Calls::catalogue_bytes))]
pub fn catalogue(number: u32, out: &mut [u8]) -> Result<usize, Refusal>
    ensures reply { result ≡ catalogue_of number (length out.old) }
    ensures bytes { out.new ≡ catalogue_bytes number out.old }
{
    if HIGHEST < number {
        return Err(Refusal::Function);
    }
    let entry = entry_of(number);
    let length = 8 * records(entry);
    if out.len() < length {
        return Err(Refusal::Room);
    }
    write(entry, out);
    Ok(length)
}
