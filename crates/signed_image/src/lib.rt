// A signed image (002, SignedImage): the regions of flash that one hash covers.
#![tactic(auto)]

ghost use Rattle.std.specs.Prelude.{◌≡◌};
ghost use Rattle.laws.specs.Tests.{bit_of};
ghost use Rattle.refusal.specs.Refusals.{number_of};
ghost use Rattle.refusal.specs.Steps.{outcome, reply, reply_of, reply_by};
ghost use Rattle.regions.specs.Region.{end_is_last};
ghost use Rattle.signed_image.specs.SignedImage.{image_number, image_fields_of, image_fields, image_hash, image_regions, image_region, image_fields_malformed, image_write_step};
ghost use Rattle.signed_image.specs.Parts.{image_parts_of, image_parts};

use element_parts::{Run, write_verdict};
use hash::{HashType, hash_length};
use refusal::Refusal;
use regions::region::Region;

// The fields but for the hash and the regions, which are parts of the element.
#[derive(Clone, Copy, Debug, PartialEq, Eq, Hash)]
pub struct SignedImage {
    pub hash_type: HashType,
    pub region_count: u8,
    pub must_validate: bool,
}

// A sound element, taken apart: each reader shows one of these.
#[derive(Clone, Copy)]
struct Parts<'a> {
    image: SignedImage,
    hash: &'a [u8],
    regions: &'a [u8],
}

#[tactic(auto, using(hash::proofs::Types::type_tried), unfolding(crate::specs::SignedImage::image_number))]
fn take_apart(element: &[u8]) -> Result<Parts<'_>, Refusal>
    ensures { reply_by image_parts_of result ≡ reply (image_number end_is_last element.now) (image_parts element.now) }
{
    let [kind, count, validate, 0, rest @ ..] = element else {
        return Err(Refusal::MalformedElement);
    };
    let hash_type = HashType::try_from(*kind)?;
    let width = hash_type.len();
    let hash = octets::front(rest, width);
    let regions = octets::behind(rest, width);
    let malformed = (1 < *validate)
        | (*count == 0)
        | (rest.len() != width + Region::LEN * *count as usize)
        | Region::any_unsound(regions, *count);
    if malformed {
        return Err(Refusal::MalformedElement);
    }
    let image = SignedImage {
        hash_type,
        region_count: *count,
        must_validate: *validate == 1,
    };
    Ok(Parts {
        image,
        hash,
        regions,
    })
}

impl SignedImage {
    // The bytes before the hash.
    const HEAD_LEN: usize = 4;

    pub fn read(element: &[u8]) -> Result<SignedImage, Refusal>
        ensures { reply_by image_fields_of result ≡ reply (image_number end_is_last element.now) (image_fields element.now) }
    {
        Ok(take_apart(element)?.image)
    }

    // The hash, as a part of the element. A call that answers a part of what was lent gives an empty one where it refuses; `read` gives the number.
    pub fn hash(element: &[u8]) -> &[u8]
        ensures { result.now ≡ image_hash end_is_last element.now }
    {
        match take_apart(element) {
            Ok(parts) => parts.hash,
            Err(_) => &[],
        }
    }

    // The regions, as a part of the element; empty where the element is malformed, as with the hash.
    pub fn regions(element: &[u8]) -> &[u8]
        ensures { result.now ≡ image_regions end_is_last element.now }
    {
        match take_apart(element) {
            Ok(parts) => parts.regions,
            Err(_) => &[],
        }
    }

    // Region i, from 0; malformed where the element is, or has no such region. A walk over all of them asks for the regions once, and then `Region::nth`.
    pub fn region(element: &[u8], i: usize) -> Result<Region, Refusal>
        ensures { reply_of result ≡ image_region end_is_last element.now i }
    {
        Region::nth(SignedImage::regions(element), i)
    }

    #[tactic(auto, using(octets::proofs::Parts::put_three, laws::proofs::Tests::bit_byte), unfolding(crate::specs::SignedImage::image_fields_malformed))]
    pub fn write(
        hash_type: u8,
        must_validate: bool,
        hash: &[u8],
        regions: &[u8],
        buffer: &mut [u8],
    ) -> Result<(), Refusal>
        ensures { outcome (number_of result) buffer.new ≡ image_write_step end_is_last hash_type (bit_of must_validate) hash.now regions.now buffer.old }
    {
        let malformed = SignedImage::fields_malformed(hash_type, hash, regions);
        let start = SignedImage::HEAD_LEN + hash.len();
        // No buffer is as long as a sum that doesn't fit.
        write_verdict(malformed, start.saturating_add(regions.len()), buffer.len())?;
        let run = Run {
            bytes: regions,
            width: Region::LEN,
        };
        let count = run.count() as u8;
        octets::put(buffer, 0, &[hash_type, count, must_validate as u8, 0]);
        octets::put(buffer, SignedImage::HEAD_LEN, hash);
        octets::put(buffer, start, regions);
        Ok(())
    }

    #[tactic(auto, unfolding(crate::specs::SignedImage::image_fields_malformed))]
    fn fields_malformed(hash_type: u8, hash: &[u8], regions: &[u8]) -> bool
        ensures { result ≡ image_fields_malformed end_is_last hash_type hash.now regions.now }
    {
        let run = Run {
            bytes: regions,
            width: Region::LEN,
        };
        // At most 255 regions are left to look at where the run isn't bad, however many bytes were lent.
        HashType::try_from(hash_type).is_err()
            || hash.len() != hash_length(hash_type)
            || run.bad()
            || Region::any_unsound(regions, run.count() as u8)
    }
}
