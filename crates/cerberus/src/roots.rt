// Root CAs. The hash type is the caller's.
ghost use Rattle.std.specs.Prelude.{◌≡◌};
ghost use Rattle.refusal.specs.Steps.{outcome, decided, reply};
ghost use Rattle.root_cas.specs.RootCas.{roots_number, roots_fields, roots_hash_number, roots_write_step};
ghost use Rattle.c_encoding.specs.Answers.{shown};
ghost use Rattle.cerberus.specs.Calls.{roots_values, hash_place};

use refusal::number_of;
use root_cas::RootCas;

#[unsafe(no_mangle)]
pub extern "C" fn cerberus_root_cas_read(
    hash_type: u8,
    element: &[u8],
    count: &mut u8,
    hash_len: &mut usize,
) -> u8
    ensures { outcome result (count.new, hash_len.new)
        ≡ shown (reply (roots_number hash_type element.now) (roots_fields element.now)) (roots_values hash_type) (count.old, hash_len.old) }
{
    match RootCas::read(hash_type, element) {
        Ok(roots) => {
            *count = roots.count;
            *hash_len = hash::hash_length(hash_type);
            0
        }
        Err(why) => why.number(),
    }
}

#[unsafe(no_mangle)]
pub extern "C" fn cerberus_root_cas_hash(
    hash_type: u8,
    element: &[u8],
    index: usize,
    offset: &mut usize,
    hash_len: &mut usize,
) -> u8
    ensures { outcome result (offset.new, hash_len.new)
        ≡ decided (roots_hash_number hash_type element.now index) (offset.old, hash_len.old) (hash_place hash_type index) }
{
    match RootCas::hash_verdict(hash_type, element, index) {
        Ok(()) => {
            let width = hash::hash_length(hash_type);
            *offset = RootCas::HEAD_LEN + width * index;
            *hash_len = width;
            0
        }
        Err(why) => why.number(),
    }
}

#[unsafe(no_mangle)]
pub extern "C" fn cerberus_root_cas_write(hash_type: u8, hashes: &[u8], buffer: &mut [u8]) -> u8
    ensures { outcome result buffer.new ≡ roots_write_step hash_type hashes.now buffer.old }
{
    number_of(&RootCas::write(hash_type, hashes, buffer))
}
