// Numbers in a slice of bytes, low byte first; compiled, each read is one load and each write one store.
#![tactic(auto)]

ghost use Rattle.std.specs.Prelude.{◌≡◌, ◌+◌, ◌≤◌, length};
ghost use Rattle.little.specs.Little.{little, bytes, written};

// The byte at `at`.
pub fn u8_at(s: &[u8], at: usize) -> u8
    requires { at + 1 ≤ length s.now }
    ensures { result ≡ little 1 s.now at }
{
    s[at]
}

// The number in the two bytes from `at` on.
pub fn u16_at(s: &[u8], at: usize) -> u16
    requires { at + 2 ≤ length s.now }
    ensures { result ≡ little 2 s.now at }
{
    u16::from_le_bytes(s[at..at + 2].try_into().unwrap())
}

// The number in the four bytes from `at` on.
pub fn u32_at(s: &[u8], at: usize) -> u32
    requires { at + 4 ≤ length s.now }
    ensures { result ≡ little 4 s.now at }
{
    u32::from_le_bytes(s[at..at + 4].try_into().unwrap())
}

// The number in the eight bytes from `at` on.
pub fn u64_at(s: &[u8], at: usize) -> u64
    requires { at + 8 ≤ length s.now }
    ensures { result ≡ little 8 s.now at }
{
    u64::from_le_bytes(s[at..at + 8].try_into().unwrap())
}

// Puts the two bytes of `v` at `at`; every other byte stays.
pub fn put_u16(d: &mut [u8], at: usize, v: u16)
    requires { at + 2 ≤ length d.old }
    ensures { d.new ≡ written d.old at (bytes 2 v) }
{
    d[at..at + 2].copy_from_slice(&v.to_le_bytes());
}

// Puts the four bytes of `v` at `at`; every other byte stays.
pub fn put_u32(d: &mut [u8], at: usize, v: u32)
    requires { at + 4 ≤ length d.old }
    ensures { d.new ≡ written d.old at (bytes 4 v) }
{
    d[at..at + 4].copy_from_slice(&v.to_le_bytes());
}

// Puts the eight bytes of `v` at `at`; every other byte stays.
pub fn put_u64(d: &mut [u8], at: usize, v: u64)
    requires { at + 8 ≤ length d.old }
    ensures { d.new ≡ written d.old at (bytes 8 v) }
{
    d[at..at + 8].copy_from_slice(&v.to_le_bytes());
}
