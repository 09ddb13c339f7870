// Signed images.
ghost use Rattle.std.specs.Prelude.{◌≡◌};
ghost use Rattle.refusal.specs.Steps.{outcome, reply};
ghost use Rattle.regions.specs.Region.{end_is_last};
ghost use Rattle.signed_image.specs.SignedImage.{image_number, image_fields, image_region, image_write_step};
ghost use Rattle.c_encoding.specs.Answers.{shown};
ghost use Rattle.cerberus.specs.Calls.{addresses, image_values};

use crate::flash_regions::show_region;
use refusal::{Refusal, number_of};
use signed_image::SignedImage;

#[unsafe(no_mangle)]
pub extern "C" fn cerberus_signed_image_read(
    element: &[u8],
    hash_type: &mut u8,
    region_count: &mut u8,
    must_validate: &mut u8,
    hash_len: &mut usize,
) -> u8
    ensures { outcome result (hash_type.new, region_count.new, must_validate.new, hash_len.new)
        ≡ shown (reply (image_number end_is_last element.now) (image_fields element.now)) image_values (hash_type.old, region_count.old, must_validate.old, hash_len.old) }
{
    match SignedImage::read(element) {
        Ok(image) => {
            *hash_type = image.hash_type.number();
            *region_count = image.region_count;
            *must_validate = u8::from(image.must_validate);
            *hash_len = image.hash_type.len();
            0
        }
        Err(why) => why.number(),
    }
}

#[unsafe(no_mangle)]
pub extern "C" fn cerberus_signed_image_region(
    element: &[u8],
    index: usize,
    start: &mut u32,
    end: &mut u32,
) -> u8
    ensures { outcome result (start.new, end.new) ≡ shown (image_region end_is_last element.now index) addresses (start.old, end.old) }
{
    show_region(SignedImage::region(element, index), start, end)
}

#[unsafe(no_mangle)]
pub extern "C" fn cerberus_signed_image_write(
    hash_type: u8,
    must_validate: u8,
    hash: &[u8],
    regions: &[u8],
    buffer: &mut [u8],
) -> u8
    ensures { outcome result buffer.new ≡ image_write_step end_is_last hash_type must_validate hash.now regions.now buffer.old }
{
    if 1 < must_validate {
        return Refusal::MalformedElement.number();
    }
    let written = SignedImage::write(hash_type, must_validate == 1, hash, regions, buffer);
    number_of(&written)
}
