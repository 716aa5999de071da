//! Numbers and their bytes.

ghost use Rattle.std.specs.Prelude.{◌≡◌, ◌<◌, ◌≤◌, ◌^◌, ◌+◌, ◌*◌, [], ◌∷◌, length};
ghost use Rattle.journal_core.specs.Bytes.{le_bytes, le_value, placed, piece};

/// The number of four bytes, the lowest first. A compiler makes one load of it where the bytes lie one after another, as those of
/// each instruction's word do.
#[tactic(auto, unfolding(journal_core::specs::Bytes::le_value))]
fn word_of(a: u8, b: u8, c: u8, d: u8) -> u64
    ensures value { result ≡ le_value (a ∷ b ∷ c ∷ d ∷ []) }
    ensures below { result < 256 ^ 4 }
{
    u64::from(a) + 256 * (u64::from(b) + 256 * (u64::from(c) + 256 * u64::from(d)))
}

/// The number of some bytes, the lowest first.
pub fn number_of(bytes: &[u8]) -> u64
    requires { length bytes.now ≤ 8 }
    ensures value { result ≡ le_value bytes.now }
    ensures below { result < 256 ^ length bytes.now }
{
    match bytes {
        [] => 0,
        [first, rest @ ..] => *first as u64 + 256 * number_of(rest),
    }
}

/// The number of some bytes, the lowest first: of one, two, four and eight bytes by one load.
#[tactic(auto, unfolding(journal_core::specs::Bytes::le_value))]
fn number_by_size(bytes: &[u8]) -> u64
    requires { length bytes.now ≤ 8 }
    ensures value { result ≡ le_value bytes.now }
    ensures below { result < 256 ^ length bytes.now }
{
    match bytes {
        [a] => u64::from(*a),
        [a, b] => u64::from(*a) + 256 * u64::from(*b),
        [a, b, c, d] => word_of(*a, *b, *c, *d),
        [a, b, c, d, e, f, g, h] => {
            word_of(*a, *b, *c, *d) + 4_294_967_296 * word_of(*e, *f, *g, *h)
        }
        _ => number_of(bytes),
    }
}

/// Places some bytes in storage.
#[tactic(auto, unfolding(journal_core::specs::Bytes::placed))]
pub fn place_bytes(ram: &mut [u8], at: usize, bytes: &[u8])
    requires { at + length bytes.now ≤ length ram.old }
    ensures { ram.new ≡ placed ram.old at bytes.now }
{
    ram[at..at + bytes.len()].copy_from_slice(bytes);
}

/// Places the bytes of a number in storage, the lowest first: one, two, four and eight bytes by one store.
pub fn place_number(ram: &mut [u8], at: usize, size: usize, value: u64)
    requires within { at + size ≤ length ram.old }
    requires size { size ≤ 8 }
    ensures { ram.new ≡ placed ram.old at (le_bytes size value) }
{
    let bytes = value.to_le_bytes();
    match size {
        1 => place_bytes(ram, at, &bytes[..1]),
        2 => place_bytes(ram, at, &bytes[..2]),
        4 => place_bytes(ram, at, &bytes[..4]),
        8 => place_bytes(ram, at, &bytes),
        _ => place_bytes(ram, at, &bytes[..size]),
    }
}

/// The number of this many bytes in storage, the lowest first.
#[tactic(auto, unfolding(journal_core::specs::Bytes::piece))]
pub fn number_at(ram: &[u8], at: usize, size: usize) -> u64
    requires within { at + size ≤ length ram.now }
    requires size { size ≤ 8 }
    ensures value { result ≡ le_value (piece ram.now at size) }
    ensures below { result < 256 ^ size }
{
    number_by_size(&ram[at..at + size])
}
