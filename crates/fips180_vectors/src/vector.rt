// One vector of one hash, which is one line of the report.
use std::fmt;
use std::fmt::Display;
use vector_report::Tally;

#[derive(Clone, Copy)]
pub(crate) enum Hash {
    Sha256,
    Sha384,
    Sha512,
}

impl Display for Hash {
    fn fmt<W: fmt::Write>(&self, f: &mut fmt::Formatter<W>) -> fmt::Result {
        f.write_str(match self {
            Hash::Sha256 => "SHA-256",
            Hash::Sha384 => "SHA-384",
            Hash::Sha512 => "SHA-512",
        })
    }
}

// Hashes a message and writes whether the digest is the expected one, or which other it is.
pub(crate) fn of_message<W: fmt::Write, D: Display + Drop>(
    tally: &mut Tally<W>,
    hash: Hash,
    name: D,
    message: &[u8],
    expected: &str,
) -> fmt::Result {
    let vector = format_args!("{hash} of {name}");
    let expected = expected.as_bytes();
    match hash {
        // A refusal would show as zeros, which no vector has.
        Hash::Sha256 => {
            let digest = sha256::sha256(message).unwrap_or([0; 32]);
            tally.compare(vector, &digest, expected)
        }
        Hash::Sha384 => tally.compare(vector, &sha512::sha384(message), expected),
        Hash::Sha512 => tally.compare(vector, &sha512::sha512(message), expected),
    }
}

// The first n bytes of the pattern, all of it where n is more.
pub(crate) fn of_pattern<W: fmt::Write>(
    tally: &mut Tally<W>,
    hash: Hash,
    pattern: &[u8],
    n: usize,
    expected: &str,
) -> fmt::Result {
    let message = &pattern[..n.min(pattern.len())];
    of_message(
        tally,
        hash,
        format_args!("a pattern of {n} bytes"),
        message,
        expected,
    )
}
