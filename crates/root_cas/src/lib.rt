// The root CAs of a CFM (002, RootCAs): hashes of the root certificates that are trusted. The type of the hashes is the manifest's, and the caller gives it,
// beside the element in each call: a caller has the two apart, and a struct of both would be made for one call.
#![tactic(auto)]

ghost use Rattle.std.specs.Prelude.{◌≡◌};
ghost use Rattle.refusal.specs.Refusals.{number_of};
ghost use Rattle.refusal.specs.Steps.{outcome, reply, reply_of, reply_by};
ghost use Rattle.hash.specs.Types.{hash_length};
ghost use Rattle.element_parts.specs.Parts.{item};
ghost use Rattle.root_cas.specs.RootCas.{roots_number, roots_fields, roots_hashes, roots_hash, roots_hash_number, roots_write_step};
ghost use Rattle.root_cas.specs.Hashes.{run_of, hash_run};

use element_parts::{Run, write_verdict};
use hash::{HashType, hash_length};
use refusal::Refusal;

// How many hashes there are; the hashes are a part of the element.
#[derive(Clone, Copy, Debug, PartialEq, Eq, Hash)]
pub struct RootCas {
    pub count: u8,
}

fn of_type(hash_type: u8, hashes: &[u8]) -> Run<'_>
    ensures { run_of result ≡ (hash_length hash_type, hashes.now) }
{
    Run {
        bytes: hashes,
        width: hash_length(hash_type),
    }
}

// The hashes of a sound element.
#[tactic(auto, using(hash::proofs::Types::type_tried, laws::proofs::Lists::take_to_end), unfolding(crate::specs::RootCas::roots_number))]
fn hash_run(hash_type: u8, element: &[u8]) -> Result<Run<'_>, Refusal>
    ensures { reply_by run_of result ≡ reply (roots_number hash_type element.now) (hash_run hash_type element.now) }
{
    let [count, 0, 0, 0, hashes @ ..] = element else {
        return Err(Refusal::MalformedElement);
    };
    let width = HashType::try_from(hash_type)?.len();
    if *count == 0 || hashes.len() != width * *count as usize {
        return Err(Refusal::MalformedElement);
    }
    Ok(Run {
        bytes: hashes,
        width,
    })
}

impl RootCas {
    // The bytes before the hashes.
    pub const HEAD_LEN: usize = 4;

    pub fn read(hash_type: u8, element: &[u8]) -> Result<RootCas, Refusal>
        ensures { reply_of result ≡ reply (roots_number hash_type element.now) (roots_fields element.now) }
    {
        hash_run(hash_type, element)?;
        Ok(RootCas {
            count: octets::byte_at(element, 0),
        })
    }

    // The hashes, as a part of the element. A call that answers a part of what was lent gives an empty one where it refuses; `read` gives the number.
    pub fn hashes(hash_type: u8, element: &[u8]) -> &[u8]
        ensures { result.now ≡ roots_hashes hash_type element.now }
    {
        match hash_run(hash_type, element) {
            Ok(run) => run.bytes,
            Err(_) => &[],
        }
    }

    // Hash i, from 0; empty where the element is malformed, or has no such hash. A walk over all of them asks for the hashes once, and then `nth_hash`.
    #[tactic(auto, using(crate::proofs::ByNumber::hash_walk))]
    pub fn hash(hash_type: u8, element: &[u8], i: usize) -> &[u8]
        ensures { result.now ≡ roots_hash hash_type element.now i }
    {
        RootCas::nth_hash(hash_type, RootCas::hashes(hash_type, element), i)
    }

    // Hash i, from 0, of the hashes that an element shows; empty past the last.
    pub fn nth_hash(hash_type: u8, hashes: &[u8], i: usize) -> &[u8]
        ensures { result.now ≡ item (hash_length hash_type) hashes.now i }
    {
        of_type(hash_type, hashes).nth(i)
    }

    // The companion of `hash` on the same inputs: 12 where that part is empty.
    #[tactic(auto, unfolding(crate::specs::RootCas::roots_hash_number))]
    pub fn hash_verdict(hash_type: u8, element: &[u8], i: usize) -> Result<(), Refusal>
        ensures { number_of result ≡ roots_hash_number hash_type element.now i }
    {
        let roots = RootCas::read(hash_type, element)?;
        if roots.count as usize <= i {
            return Err(Refusal::MalformedElement);
        }
        Ok(())
    }

    #[tactic(auto, unfolding(crate::specs::RootCas::roots_fields_malformed))]
    pub fn write(hash_type: u8, hashes: &[u8], buffer: &mut [u8]) -> Result<(), Refusal>
        ensures { outcome (number_of result) buffer.new ≡ roots_write_step hash_type hashes.now buffer.old }
    {
        // Of a type that isn't defined, hashes have no bytes, and no run of them is good.
        let run = of_type(hash_type, hashes);
        write_verdict(run.bad(), RootCas::HEAD_LEN + hashes.len(), buffer.len())?;
        octets::put(buffer, 0, &[run.count() as u8, 0, 0, 0]);
        octets::put(buffer, RootCas::HEAD_LEN, hashes);
        Ok(())
    }
}
