// SHA-256, whose blocks have 64 bytes, of the pattern, whose byte i is i: at the lengths around each change in the number of padded blocks, and around each
// whole number of blocks.
use crate::vector::{Hash, of_pattern};
use std::fmt;
use vector_report::Tally;

// How much of the pattern, and its digest.
const SHA256: [(usize, &str); 24] = [
    (
        1,
        "6e340b9cffb37a989ca544e6bb780a2c78901d3fb33738768511a30617afa01d",
    ),
    (
        55,
        "463eb28e72f82e0a96c0a4cc53690c571281131f672aa229e0d45ae59b598b59",
    ),
    (
        56,
        "da2ae4d6b36748f2a318f23e7ab1dfdf45acdc9d049bd80e59de82a60895f562",
    ),
    (
        57,
        "2fe741af801cc238602ac0ec6a7b0c3a8a87c7fc7d7f02a3fe03d1c12eac4d8f",
    ),
    (
        63,
        "29af2686fd53374a36b0846694cc342177e428d1647515f078784d69cdb9e488",
    ),
    (
        64,
        "fdeab9acf3710362bd2658cdc9a29e8f9c757fcf9811603a8c447cd1d9151108",
    ),
    (
        65,
        "4bfd2c8b6f1eec7a2afeb48b934ee4b2694182027e6d0fc075074f2fabb31781",
    ),
    (
        119,
        "da18797ed7c3a777f0847f429724a2d8cd5138e6ed2895c3fa1a6d39d18f7ec6",
    ),
    (
        120,
        "f52b23db1fbb6ded89ef42a23ce0c8922c45f25c50b568a93bf1c075420bbb7c",
    ),
    (
        121,
        "335a461692b30bba1d647cc71604e88e676c90e4c22455d0b8c83f4bd7c8ac9b",
    ),
    (
        127,
        "92ca0fa6651ee2f97b884b7246a562fa71250fedefe5ebf270d31c546bfea976",
    ),
    (
        128,
        "471fb943aa23c511f6f72f8d1652d9c880cfa392ad80503120547703e56a2be5",
    ),
    (
        129,
        "5099c6a56203f9687f7d33f4bfdf576d31dc91f6b695ecea38b2770c87631135",
    ),
    (
        183,
        "b1459345163aed1c356302a5230f8912564b04f340610b18ef1aa2c47b418981",
    ),
    (
        184,
        "82f63a1d007fd9796756abbbf51c246884dde3d79cf9cacacc901462ae75e3ff",
    ),
    (
        185,
        "78d8ce1ccd46cf92fb4e255f183bc9f355e5e494b3180c0da9154e17a1d61f74",
    ),
    (
        191,
        "d280f473c251cb75c91880ea0eca2a2f1cda3152bef54a38c4a3aedad615c819",
    ),
    (
        192,
        "8b4a544837a1a0280fa8a7c82865c27a1064b3cc6281fda0753566b9bb104a87",
    ),
    (
        193,
        "7daafa7aed7d63d06a98b7b6f785eab5427d084f30d5c9ee6dd0d2f3ada329e6",
    ),
    (
        247,
        "4b96ec3b91e9f764ac0227ca7df451bd8294cd46298047b43b960ae1c0b0afc5",
    ),
    (
        248,
        "c6fefe1bfbe6f5364bf0e40447ffca27fde55f1cd815e1fa3bafb46a41c91749",
    ),
    (
        249,
        "552a69d052ae2980aa92ef44b4a8752fc585d70127d9df1ac53137e266786e4d",
    ),
    (
        255,
        "3f8591112c6bbe5c963965954e293108b7208ed2af893e500d859368c654eabe",
    ),
    (
        256,
        "40aff2e9d2d8922e47afd4648e6967497158785fbd1da870e7110266bf944880",
    ),
];

pub(crate) fn run<W: fmt::Write>(tally: &mut Tally<W>, pattern: &[u8]) -> fmt::Result {
    for (n, digest) in SHA256 {
        of_pattern(tally, Hash::Sha256, pattern, n, digest)?;
    }
    Ok(())
}
