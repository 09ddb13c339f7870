// Well-known messages, each by the three hashes.
ghost use Rattle.std.specs.Prelude.{◌≡◌, length};

use crate::vector::{Hash, of_message};
use std::fmt;
use vector_report::Tally;

struct Digests {
    sha256: &'static str,
    sha384: &'static str,
    sha512: &'static str,
}

// Two messages that each hash pads to one block, and two that fill a block but for the length: SHA-256 pads the first of these to two blocks, SHA-384 and
// SHA-512 the second.
const SHORT: [(&str, &str, Digests); 4] = [
    (
        "the empty message",
        "",
        Digests {
            sha256: "e3b0c44298fc1c149afbf4c8996fb92427ae41e4649b934ca495991b7852b855",
            sha384: "38b060a751ac96384cd9327eb1b1e36a21fdb71114be07434c0cc7bf63f6e1da274edebfe76f65fbd51ad2f14898b95b",
            sha512: "cf83e1357eefb8bdf1542850d66d8007d620e4050b5715dc83f4a921d36ce9ce47d0d13c5d85f2b0ff8318d2877eec2f63b931bd47417a81a538327af927da3e",
        },
    ),
    (
        "abc",
        "abc",
        Digests {
            sha256: "ba7816bf8f01cfea414140de5dae2223b00361a396177a9cb410ff61f20015ad",
            sha384: "cb00753f45a35e8bb5a03d699ac65007272c32ab0eded1631a8b605a43ff5bed8086072ba1e7cc2358baeca134c825a7",
            sha512: "ddaf35a193617abacc417349ae20413112e6fa4e89a97ea20a9eeee64b55d39a2192992a274fc1a836ba3c23a3feebbd454d4423643ce80e2a9ac94fa54ca49f",
        },
    ),
    (
        "448 bits",
        "abcdbcdecdefdefgefghfghighijhijkijkljklmklmnlmnomnopnopq",
        Digests {
            sha256: "248d6a61d20638b8e5c026930c3e6039a33ce45964ff2167f6ecedd419db06c1",
            sha384: "3391fdddfc8dc7393707a65b1b4709397cf8b1d162af05abfe8f450de5f36bc6b0455a8520bc4e6f5fe95b1fe3c8452b",
            sha512: "204a8fc6dda82f0a0ced7beb8e08a41657c16ef468b228a8279be331a703c33596fd15c13b1b07f9aa1d3bea57789ca031ad85c7a71dd70354ec631238ca3445",
        },
    ),
    (
        "896 bits",
        "abcdefghbcdefghicdefghijdefghijkefghijklfghijklmghijklmnhijklmnoijklmnopjklmnopqklmnopqrlmnopqrsmnopqrstnopqrstu",
        Digests {
            sha256: "cf5b16a778af8380036ce59e7b0492370b249b11e8f07a51afac45037afee9d1",
            sha384: "09330c33f71147e83d192fc782cd1b4753111b173b3b05d22fa08086e3b0f712fcc7c71a557e2db966c3e9fa91746039",
            sha512: "8e959b75dae313da8cf4f72814fc143f8f7779c6eb9f7fa17299aeadb6889018501d289e4900f7e4331b99dec4b5433ac7d329eeb6dd26545e96e55b874be909",
        },
    ),
];

const MILLION: Digests = Digests {
    sha256: "cdc76e5c9914fb9281a1c7e284d73e67f1809a48a497200e046d39ccc7112cd0",
    sha384: "9d0e1809716474cb086e834e310a4a1ced149e9c00f248527972cec5704c2a5b07b8b3dc38ecc4ebae97ddd87f3d8985",
    sha512: "e718483d0ce769644e2e42c7bc15b4638e1f98b13b2044285632a803afa973ebde0ff244877ea60a4cb0432ce577c31beb009c5c2c49aa2e4eadb217ad8cc09b",
};

// Its contract says only the length: a proof of the function that lends the array on would otherwise have all of it written out.
fn million_a() -> [u8; 1000000]
    ensures { 1000000 ≡ length result }
{
    [b'a'; 1000000]
}

fn by_each<W: fmt::Write>(
    tally: &mut Tally<W>,
    name: &str,
    message: &[u8],
    digests: &Digests,
) -> fmt::Result {
    of_message(tally, Hash::Sha256, name, message, digests.sha256)?;
    of_message(tally, Hash::Sha384, name, message, digests.sha384)?;
    of_message(tally, Hash::Sha512, name, message, digests.sha512)
}

pub(crate) fn run<W: fmt::Write>(tally: &mut Tally<W>) -> fmt::Result {
    for (name, message, digests) in &SHORT {
        by_each(tally, name, message.as_bytes(), digests)?;
    }
    by_each(tally, "a million a", &million_a(), &MILLION)
}
