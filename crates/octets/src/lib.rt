// Bytes in lent slices. Each function is total: a byte past the end reads as 0, and a run of bytes that does not fit is not
// put. Numbers of several bytes are little-endian.
#![tactic(auto)]

ghost use Rattle.std.specs.Prelude.{◌≡◌, ◌<◌, ◌^◌, ℕ, get_or, take, drop};
ghost use Rattle.std.proofs.Common.{rules};
ghost use Rattle.octets.specs.Octets.{number_at, bytes_of, bytes_at, pasted, zeroed_from, same_bytes, all_zero, replaced_by};

// A number that W bytes hold.
pub trait LittleEndian<const W: usize>: Sized {
    ghost number: { Self → ℕ };

    fn from_bytes(bytes: &[u8; W]) -> Self
        ensures { number result ≡ number_at W bytes.now 0 };

    fn bytes(self) -> [u8; W]
        ensures { result ≡ bytes_of W (number self) };

    // An array of W bytes can be made.
    ghost fits: { W < 2 ^ 63 };
}

// One impl for each integer: the gate takes none that a macro of ours writes.
impl LittleEndian<2> for u16 {
    ghost number = { λ n. n };

    ghost fits = { Prim.search rules };

    fn from_bytes(bytes: &[u8; 2]) -> u16 {
        u16::from_le_bytes(*bytes)
    }

    fn bytes(self) -> [u8; 2] {
        u16::to_le_bytes(self)
    }
}

impl LittleEndian<4> for u32 {
    ghost number = { λ n. n };

    ghost fits = { Prim.search rules };

    fn from_bytes(bytes: &[u8; 4]) -> u32 {
        u32::from_le_bytes(*bytes)
    }

    fn bytes(self) -> [u8; 4] {
        u32::to_le_bytes(self)
    }
}

impl LittleEndian<8> for u64 {
    ghost number = { λ n. n };

    ghost fits = { Prim.search rules };

    fn from_bytes(bytes: &[u8; 8]) -> u64 {
        u64::from_le_bytes(*bytes)
    }

    fn bytes(self) -> [u8; 8] {
        u64::to_le_bytes(self)
    }
}

pub fn byte_at(b: &[u8], at: usize) -> u8
    ensures { result ≡ get_or b.now at 0 }
{
    b.get(at).copied().unwrap_or(0)
}

// The first n bytes: all where the slice has fewer.
pub fn front(b: &[u8], n: usize) -> &[u8]
    ensures { result.now ≡ take n b.now }
{
    if n < b.len() { &b[..n] } else { b }
}

// The bytes from index at on: none where the slice ends before.
pub fn behind(b: &[u8], at: usize) -> &[u8]
    ensures { result.now ≡ drop at b.now }
{
    if at < b.len() { &b[at..] } else { &[] }
}

// The N bytes from index at on.
#[tactic(auto, using(crate::proofs::Parts::chunk_whole, crate::proofs::Parts::rest_put))]
pub fn bytes_at<const N: usize>(b: &[u8], at: usize) -> [u8; N]
    ensures { result ≡ bytes_at N b.now at }
{
    let rest = behind(b, at);
    if let Some(whole) = rest.first_chunk::<N>() {
        return *whole;
    }
    let mut bytes = [0u8; N];
    put(&mut bytes, 0, rest);
    bytes
}

// The number that the bytes from index at on are.
#[tactic(auto, using(crate::proofs::Parts::number_of_bytes_at))]
pub fn number_at<N: LittleEndian<W>, const W: usize>(b: &[u8], at: usize) -> N
    ensures { N.number result ≡ number_at W b.now at }
{
    N::from_bytes(&bytes_at(b, at))
}

// The bytes of src go into dst from at on, where they fit.
pub fn put(dst: &mut [u8], at: usize, src: &[u8])
    ensures { dst.new ≡ pasted dst.old at src.now }
{
    if at <= dst.len() && src.len() <= dst.len() - at {
        // No copy_from_slice: of it the library for C would need memmove, and memcpy and memset are all that it may need.
        for i in 0..src.len() {
            dst[at + i] = src[i];
        }
    }
}

// Every byte from index at on becomes 0.
pub fn zero_from(dst: &mut [u8], at: usize)
    ensures { dst.new ≡ zeroed_from dst.old at }
{
    if at < dst.len() {
        dst[at..].fill(0);
    }
}

// dst becomes src and then zeros, where src fits.
pub fn replace(dst: &mut [u8], src: &[u8])
    ensures { dst.new ≡ replaced_by dst.old src.now }
{
    if src.len() <= dst.len() {
        put(dst, 0, src);
        zero_from(dst, src.len());
    }
}

// Lists of one length are read to their ends, so that the time tells nothing of where a MAC or a digest differs.
#[tactic(auto, using(crate::proofs::Buffers::same_not, crate::proofs::Buffers::same_more))]
pub fn same(a: &[u8], b: &[u8]) -> bool
    ensures { result ≡ same_bytes a.now b.now }
{
    if a.len() != b.len() {
        return false;
    }
    let mut difference = 0u8;
    for (x, y) in a.iter().zip(b) {
        difference |= x ^ y;
    }
    difference == 0
}

// No `all`: what its closure says of each byte did not come together to the definition.
pub fn all_zero(b: &[u8]) -> bool
    ensures { result ≡ all_zero b.now }
{
    for byte in b {
        if *byte != 0 {
            return false;
        }
    }
    true
}
