// The 16-bit fields of a slice of bytes, low byte first.
ghost use Rattle.std.specs.Prelude.{◌≡◌, ◌+◌, ◌*◌, ◌<◌, length};
ghost use Rattle.tables.specs.Field.{field_at, put_bytes, put_field};

// Field k.
#[tactic(auto, unfolding(crate::specs::Field::field_at))]
pub(crate) fn get(s: &[u8], k: usize) -> u16
    requires { 2 * k + 1 < length s.now }
    ensures { result ≡ field_at s.now k }
{
    u16::from_le_bytes([s[2 * k], s[2 * k + 1]])
}

// Puts two bytes as field k.
#[tactic(auto, unfolding(crate::specs::Field::put_bytes))]
pub(crate) fn put_bytes(s: &mut [u8], k: usize, low: u8, high: u8)
    requires { 2 * k + 1 < length s.old }
    ensures { s.new ≡ put_bytes s.old k low high }
{
    s[2 * k] = low;
    s[2 * k + 1] = high;
}

// Puts v as field k.
pub(crate) fn put(s: &mut [u8], k: usize, v: u16)
    requires { 2 * k + 1 < length s.old }
    ensures { s.new ≡ put_field s.old k v }
{
    let [low, high] = v.to_le_bytes();
    put_bytes(s, k, low, high);
}
