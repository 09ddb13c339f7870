// Lengths of signed images: 84 bytes with SHA-512 and two regions, and one byte less or more than 44 with SHA-256 and one region.
use refusal::number_of;
use report::Report;
use signed_image::SignedImage;
use std::fmt;

// What is said of so many bytes, and the number that they give.
type Lengths = [(&'static str, usize, u8); 3];

const SHA512_READ: Lengths = [
    ("SHA-512 and two regions, 84 bytes: read", 84, 0),
    ("SHA-512 and two regions, 83 bytes: 12", 83, 12),
    ("SHA-512 and two regions, 85 bytes: 12", 85, 12),
];

const SHA512_WRITTEN: Lengths = [
    (
        "SHA-512 and two regions, a buffer of 84 bytes: written",
        84,
        0,
    ),
    ("SHA-512 and two regions, a buffer of 83 bytes: 3", 83, 3),
    ("SHA-512 and two regions, a buffer of 85 bytes: 3", 85, 3),
];

const SHA256_READ: Lengths = [
    ("SHA-256 and one region, 44 bytes: read", 44, 0),
    ("SHA-256 and one region, 43 bytes: 12", 43, 12),
    ("SHA-256 and one region, 45 bytes: 12", 45, 12),
];

// The reader's number for an element that is all zero but for its hash type and region count: each region is from 0 to 0.
fn read_number(hash_type: u8, region_count: u8, element: &mut [u8]) -> u8 {
    octets::put(element, 0, &[hash_type, region_count]);
    number_of(&SignedImage::read(element))
}

// The writer's number for a hash of SHA-512 and two regions.
fn write_number(buffer: &mut [u8]) -> u8 {
    number_of(&SignedImage::write(2, true, &[0xab; 64], &[0; 16], buffer))
}

// The number of zeros of each length.
fn of_lengths<F: Fn(&mut [u8]) -> u8>(out: &mut Report, lengths: Lengths, number: F) -> fmt::Result
    requires { F.IsAlwaysCallable number }
{
    for (text, n, expected) in lengths {
        let mut zeros = [0u8; 85];
        let given = number(&mut zeros[..n.min(85)]);
        out.example(text, given == expected)?;
    }
    Ok(())
}

pub(crate) fn run(out: &mut Report) -> fmt::Result {
    of_lengths(out, SHA512_READ, |element| read_number(2, 2, element))?;
    of_lengths(out, SHA512_WRITTEN, write_number)?;
    of_lengths(out, SHA256_READ, |element| read_number(0, 1, element))
}
