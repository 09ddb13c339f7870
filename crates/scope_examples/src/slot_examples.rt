// Totals at the limits, and Get PCD Id after a manifest with id 0x01020304 became active.
use manifest_slot::Slot;
use refusal::number_of;
use report::Report;
use std::fmt;

// The manifest type of a PCD (002).
const MAGIC: u16 = 0x1029;

// A manifest of 13 bytes: a header with id 0x01020304, and a signature of one byte.
const MANIFEST: [u8; 13] = *b"\x0d\x00\x29\x10\x04\x03\x02\x01\x01\x00\x00\x00\xaa";

// What is said of a total, and the number that it gives.
const TOTALS: [(&str, u64, u8); 4] = [
    ("total 12 is 5", 12, 5),
    ("total 13 passes", 13, 0),
    ("total 4,096 passes", 4096, 0),
    ("total 4,097 is 5", 4097, 5),
];

fn totals(out: &mut Report, slot: Slot, pending: &[u8], active: &[u8]) -> fmt::Result {
    for (text, total, expected) in TOTALS {
        let verdict = slot.prepare(total, pending, active).verdict;
        out.example(text, number_of(&verdict) == expected)?;
    }
    Ok(())
}

// The slot after the manifest has arrived and become active.
fn activated(slot: Slot, pending: &mut [u8], active: &mut [u8]) -> Slot {
    let receiving = slot.prepare(13, pending, active).slot;
    let complete = receiving.update(&MANIFEST, pending, active).slot;
    complete.activate(true, pending, active).slot
}

fn get_pcd_id(out: &mut Report, slot: Slot, pending: &mut [u8], active: &mut [u8]) -> fmt::Result {
    let mut response = [0xffu8; 12];
    let verdict = commands::command(
        slot,
        false,
        b"\x7e\x14\x14\x00\x62",
        pending,
        active,
        &mut response,
    )
    .verdict;
    out.example(
        "Get PCD Id is accepted and writes ten bytes",
        verdict == Ok(10),
    )?;
    out.example(
        "with id 0x01020304 active it ends 01 04 03 02 01, and the bytes behind it stay",
        response == *b"\x7e\x14\x14\x00\x62\x01\x04\x03\x02\x01\xff\xff",
    )
}

pub(crate) fn run(out: &mut Report) -> fmt::Result {
    let mut pending = [0xffu8; Slot::BUFFER_LEN];
    let mut active = [0xffu8; Slot::BUFFER_LEN];
    let Ok(slot) = Slot::open(MAGIC, &mut pending, &mut active) else {
        return out.example(
            "an opening with two buffers of 4,096 bytes is accepted",
            false,
        );
    };
    totals(out, slot, &pending, &active)?;
    let slot = activated(slot, &mut pending, &mut active);
    get_pcd_id(out, slot, &mut pending, &mut active)
}
