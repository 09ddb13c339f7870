// HMAC-SHA-256 (FIPS 198-1) of one text under keys of lengths around the block's 64 bytes. The values are OpenSSL's (`openssl mac -digest SHA256 -macopt
// hexkey:.. HMAC`), and Python's hmac gave the same. Zeros fill a short key's block, so that the keys of 0 bytes and of 1 byte, a zero, have the same MAC.
use hmac::hmac_sha256;
use std::fmt;
use vector_report::Tally;

// How long the key is, and the MAC.
const MACS: [(usize, &str); 6] = [
    (
        0,
        "f4af0535da5179f169137f71528fc7f25a46a5e6ae6bfdcd3c6af5a9c57ed792",
    ),
    (
        1,
        "f4af0535da5179f169137f71528fc7f25a46a5e6ae6bfdcd3c6af5a9c57ed792",
    ),
    (
        63,
        "59ff590f247eb3cb7ed45a514f0f6853549532d71e0c198f3436903b76e5fdb2",
    ),
    (
        64,
        "be004bcb4acb366835e7f22bd1b244d6b6af42e137c25875dc087d611da0f4af",
    ),
    (
        65,
        "8ebb9d4eafc02c424a0a5b929f1a194e83395ffa4fe11a5ad381f3265071e462",
    ),
    (
        128,
        "87814fe4b6d1598233bd1e2ab63284e275a77ce6e4713c1d8d42aa004eb69cd0",
    ),
];

// The keys are the first bytes of m, whose byte i is i.
pub(crate) fn run<W: fmt::Write>(tally: &mut Tally<W>, m: &[u8]) -> fmt::Result {
    for (n, expected) in MACS {
        // A refusal would show as zeros, which no vector has.
        let mac = hmac_sha256(&m[..n.min(m.len())], b"pairing").unwrap_or([0; 32]);
        tally.compare(format_args!("key of {n} bytes"), &mac, expected.as_bytes())?;
    }
    Ok(())
}
