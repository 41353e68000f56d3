// Little-endian numbers at a place.
ghost use Rattle.std.specs.Prelude.{◌≡◌, ◌+◌, ◌*◌, ◌<◌, ◌≤◌, ◌^◌, length};
ghost use Rattle.words.specs.LittleEndian.{number_at};

// The number that N bytes at a place are.
pub fn get<const N: usize>(bytes: &[u8], at: usize) -> u64
    requires { (N ≤ 8) × (at + N ≤ length bytes.now) }
    ensures value { result ≡ number_at bytes.now at N }
    ensures upper_bound { result < 2 ^ (8 * N) }
{
    let mut eight = [0; 8];
    eight[..N].copy_from_slice(&bytes[at..at + N]);
    u64::from_le_bytes(eight)
}
