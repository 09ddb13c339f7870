// Pairing keys (document 02, Item 14) from session keys of several lengths. The values are those of OpenSSL 3.0's KBKDF, whose salt is the label of NIST SP
// 800-108: `openssl kdf -keylen 32 -kdfopt mac:HMAC -kdfopt digest:SHA256 -kdfopt hexkey:.. -kdfopt salt:pairing KBKDF`. KBKDFHMAC of Python's cryptography
// gave the same.
use pairing::pairing_key;
use std::fmt;
use vector_report::Tally;

// How long the session key is, and the pairing key: five within a block, and two longer than a block.
const KEYS: [(usize, &str); 7] = [
    (
        1,
        "618baeef2bd50a91fe565f78e3ec5a3bb277c29ab1142e1a1af5d18ad87beba8",
    ),
    (
        16,
        "6c892739a6586b9d4be1dfbaaeaf85e7d3a3202d396a551c43cbfa973e4057d5",
    ),
    (
        32,
        "6999ad4ed6b9792370448f81c4845d74beb832765152c348c8380b1fe86ebaf6",
    ),
    (
        63,
        "7af81a94a487dcbf54247b1df7065838c201079c74637855de241a95e0db3106",
    ),
    (
        64,
        "d622d752b0cec48ca2349a4795e799377aed121ae16ba584ad2333d8d71638b2",
    ),
    (
        65,
        "a4305748508c88de3909084fd76868ce53cc325120ccd96db75dba7548497601",
    ),
    (
        128,
        "343156a230b3a2a9bbc6b6b360d095593db0252a098a7a437bbaabdac9543861",
    ),
];

// The session keys are the first bytes of m, whose byte i is i.
pub(crate) fn run<W: fmt::Write>(tally: &mut Tally<W>, m: &[u8]) -> fmt::Result {
    for (n, expected) in KEYS {
        // A refusal would leave zeros, which no vector has.
        let mut key = [0u8; 32];
        let _ = pairing_key(&m[..n.min(m.len())], &mut key);
        tally.compare(
            format_args!("pairing key from {n} bytes"),
            &key,
            expected.as_bytes(),
        )?;
    }
    Ok(())
}
