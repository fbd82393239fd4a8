// The records of a slice of bytes.
ghost use Rattle.std.specs.Prelude.{◌≡◌, ◌+◌, ◌*◌, ◌<◌, length};
ghost use Rattle.majority.specs.Table.{record_at};
ghost use Rattle.tables.specs.Bytes.{record_as, record_in, records_of, field_of, put_record};

use crate::fields::{get, put, put_bytes};
use majority::Record;

// Record i, which the slice holds whole, as one of this kind.
pub(crate) fn record_as(s: &[u8], i: usize, kind: u8) -> Record
    requires { 8 * i + 7 < length s.now }
    ensures { result ≡ record_as s.now i kind }
{
    Record {
        kind,
        block: s[8 * i + 1],
        e1: get(s, 4 * i + 1),
        e2: get(s, 4 * i + 2),
        e3: get(s, 4 * i + 3),
    }
}

// The record in eight bytes.
#[tactic(auto, unfolding(crate::specs::Field::field_at))]
pub fn read(bytes: &[u8; 8]) -> Record
    ensures { result ≡ record_in bytes.now 0 }
{
    let [kind, block, a, b, c, d, e, f] = *bytes;
    Record {
        kind,
        block,
        e1: u16::from_le_bytes([a, b]),
        e2: u16::from_le_bytes([c, d]),
        e3: u16::from_le_bytes([e, f]),
    }
}

// Record i, which the slice holds whole.
pub(crate) fn read_record(s: &[u8], i: usize) -> Record
    requires { 8 * i + 7 < length s.now }
    ensures { result ≡ record_in s.now i }
{
    record_as(s, i, s[8 * i])
}

// Field d, below 4, of the eight bytes i, or 0 where the slice does not hold them whole.
#[tactic(auto, unfolding(crate::specs::Bytes::field_of))]
pub fn field_of(s: &[u8], i: usize, d: usize) -> u16
    ensures { result ≡ field_of s.now i d }
{
    if s.len() / 8 <= i {
        return 0;
    }
    if 4 <= d {
        return 0;
    }
    get(s, 4 * i + d)
}

// Record i, or the blank record where the slice does not hold it whole. Field by field: a record handed on whole goes through one register. Its
// kind and block are one field, so that a record that moves on does so by fields alone.
#[tactic(auto, using(crate::proofs::Decoded::read_fields))]
pub fn record_at(s: &[u8], i: usize) -> Record
    ensures { result ≡ record_at (records_of s.now) i }
{
    let [kind, block] = field_of(s, i, 0).to_le_bytes();
    Record {
        kind,
        block,
        e1: field_of(s, i, 1),
        e2: field_of(s, i, 2),
        e3: field_of(s, i, 3),
    }
}

// Puts r as record i; nothing changes where the slice has no room for it.
#[tactic(auto, unfolding(crate::specs::Bytes::put_record, crate::specs::Bytes::put_fields))]
pub fn put_record(s: &mut [u8], i: usize, r: Record)
    ensures { s.new ≡ put_record s.old i r }
{
    if i < s.len() / 8 {
        put_bytes(s, 4 * i, r.kind, r.block);
        put(s, 4 * i + 1, r.e1);
        put(s, 4 * i + 2, r.e2);
        put(s, 4 * i + 3, r.e3);
    }
}
