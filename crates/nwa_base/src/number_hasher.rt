//! A hasher for keys that are made of numbers.

ghost use Rattle.std.specs.Prelude.{◌≡◌, fold, length};
ghost use Rattle.std.specs.Int.{w32, w64, from_le_bytes};
ghost use Rattle.nwa_base.specs.NumberHashes.{start, mixed, after_bytes};

use std::hash::Hasher;

/// Hashes keys that are made of numbers, by one product for each number of 32 or 64 bits, or for each byte of what else is written.
#[derive(Clone, Copy)]
pub struct NumberHasher {
    state: u64,
}

impl Default for NumberHasher {
    ghost is_default = { λ h. h ≡ record { state = start } };

    fn default() -> NumberHasher {
        NumberHasher {
            state: 0x243f_6a88_85a3_08d3,
        }
    }
}

/// The state of a hasher after a number.
pub fn mixed(state: u64, number: u64) -> u64
    ensures { result ≡ mixed state number }
{
    (state ^ number).wrapping_mul(0x9e37_79b9_7f4a_7c15)
}

/// Four bytes as a number, of which the lowest comes first.
fn read_u32(bytes: &[u8]) -> u32
    requires { length bytes.now ≡ 4 }
    ensures { result ≡ from_le_bytes w32 bytes.now }
{
    u32::from_le_bytes([bytes[0], bytes[1], bytes[2], bytes[3]])
}

/// Eight bytes as a number, of which the lowest comes first.
fn read_u64(bytes: &[u8]) -> u64
    requires { length bytes.now ≡ 8 }
    ensures { result ≡ from_le_bytes w64 bytes.now }
{
    u64::from_le_bytes([
        bytes[0], bytes[1], bytes[2], bytes[3], bytes[4], bytes[5], bytes[6], bytes[7],
    ])
}

/// The state after each of the bytes, as a number of its own.
fn after_each(state: u64, bytes: &[u8]) -> u64
    ensures { result ≡ fold mixed state bytes.now }
{
    let mut after = state;
    for byte in bytes {
        after = mixed(after, *byte as u64);
    }
    after
}

impl Hasher for NumberHasher {
    ghost write = { λ h bytes. record { state = after_bytes h.state bytes } };

    ghost finish = { λ h. h.state };

    fn finish(&self) -> u64 {
        self.state
    }

    fn write(&mut self, bytes: &[u8]) {
        self.state = if bytes.len() == 4 {
            mixed(self.state, read_u32(bytes) as u64)
        } else if bytes.len() == 8 {
            mixed(self.state, read_u64(bytes))
        } else {
            after_each(self.state, bytes)
        };
    }

    fn write_u32(&mut self, i: u32) {
        self.state = mixed(self.state, i as u64);
    }

    fn write_u64(&mut self, i: u64) {
        self.state = mixed(self.state, i);
    }

    fn write_usize(&mut self, i: usize) {
        self.state = mixed(self.state, i as u64);
    }
}
