// The test cases of RFC 4231 for HMAC-SHA-256. Keys, data and values are RFC 4231's as quoted in CPython's own test suite (Lib/test/test_hmac.py). That leaves
// out case 5, which was written from memory, key, data and value. Python's hmac and OpenSSL's (`openssl mac -digest SHA256 .. HMAC`) were run on each case and
// gave the value here, in case 5 as the first 128 bits of theirs.
use hmac::hmac_sha256;
use std::fmt;
use vector_report::Tally;

struct Case {
    number: u32,
    key: &'static [u8],
    data: &'static [u8],
    mac: &'static str,
}

// Case 5's output is truncated to 128 bits; the keys of cases 6 and 7 are longer than a block.
const CASES: [Case; 7] = [
    Case {
        number: 1,
        key: &[0x0b; 20],
        data: b"Hi There",
        mac: "b0344c61d8db38535ca8afceaf0bf12b881dc200c9833da726e9376c2e32cff7",
    },
    Case {
        number: 2,
        key: b"Jefe",
        data: b"what do ya want for nothing?",
        mac: "5bdcc146bf60754e6a042426089575c75a003f089d2739839dec58b964ec3843",
    },
    Case {
        number: 3,
        key: &[0xaa; 20],
        data: &[0xdd; 50],
        mac: "773ea91e36800e46854db8ebd09181a72959098b3ef8c122d9635514ced565fe",
    },
    Case {
        number: 4,
        key: b"\x01\x02\x03\x04\x05\x06\x07\x08\x09\x0a\x0b\x0c\x0d\x0e\x0f\x10\x11\x12\x13\x14\x15\x16\x17\x18\x19",
        data: &[0xcd; 50],
        mac: "82558a389a443c0ea4cc819899f2083a85f0faa3e578f8077a2e3ff46729665b",
    },
    Case {
        number: 5,
        key: &[0x0c; 20],
        data: b"Test With Truncation",
        mac: "a3b6167473100ee06e0c796c2955552b",
    },
    Case {
        number: 6,
        key: &[0xaa; 131],
        data: b"Test Using Larger Than Block-Size Key - Hash Key First",
        mac: "60e431591ee0b67f0d8a26aacbf5b77f8e0bc6213728c5140546040f0ee37f54",
    },
    Case {
        number: 7,
        key: &[0xaa; 131],
        data: b"This is a test using a larger than block-size key and a larger than block-size data. \
The key needs to be hashed before being used by the HMAC algorithm.",
        mac: "9b09ffa71b942fcb27635fbcd5b0e944bfdc63644f0713938a7f51535c3a35e2",
    },
];

pub(crate) fn run<W: fmt::Write>(tally: &mut Tally<W>) -> fmt::Result {
    for case in &CASES {
        // A refusal would show as zeros, which no vector has.
        let mac = hmac_sha256(case.key, case.data).unwrap_or([0; 32]);
        // As many bytes as the RFC gives, two digits each.
        let shown = &mac[..mac.len().min(case.mac.len() / 2)];
        let number = case.number;
        tally.compare(
            format_args!("RFC 4231, case {number}"),
            shown,
            case.mac.as_bytes(),
        )?;
    }
    Ok(())
}
