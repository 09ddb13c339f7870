// Flash regions and R/W regions.
ghost use Rattle.std.specs.Prelude.{◌≡◌};
ghost use Rattle.refusal.specs.Steps.{outcome, reply, reply_of};
ghost use Rattle.regions.specs.Region.{end_is_last, read_region, region_write_step};
ghost use Rattle.regions.specs.RwRegion.{rw_region_number, rw_region_fields, rw_region_write_step};
ghost use Rattle.c_encoding.specs.Answers.{shown};
ghost use Rattle.cerberus.specs.Calls.{addresses, rw_values};

use refusal::{Refusal, number_of};
use regions::region::Region;
use regions::rw_region::{Operation, RwRegion};

#[unsafe(no_mangle)]
pub extern "C" fn cerberus_region_read(element: &[u8], start: &mut u32, end: &mut u32) -> u8
    ensures { outcome result (start.new, end.new) ≡ shown (read_region end_is_last element.now) addresses (start.old, end.old) }
{
    show_region(Region::read(element), start, end)
}

// What C is told of a region that was read, alone or out of a signed image.
pub(crate) fn show_region(read: Result<Region, Refusal>, start: &mut u32, end: &mut u32) -> u8
    ensures { outcome result (start.new, end.new) ≡ shown (reply_of read) addresses (start.old, end.old) }
{
    match read {
        Ok(region) => {
            *start = region.start;
            *end = region.end;
            0
        }
        Err(why) => why.number(),
    }
}

#[unsafe(no_mangle)]
pub extern "C" fn cerberus_region_write(start: u32, end: u32, buffer: &mut [u8]) -> u8
    ensures { outcome result buffer.new ≡ region_write_step end_is_last (record { start = start; end = end }) buffer.old }
{
    number_of(&Region { start, end }.write(buffer))
}

#[unsafe(no_mangle)]
pub extern "C" fn cerberus_rw_region_read(
    element: &[u8],
    operation: &mut u8,
    start: &mut u32,
    end: &mut u32,
) -> u8
    ensures { outcome result (operation.new, start.new, end.new)
        ≡ shown (reply (rw_region_number end_is_last element.now) (rw_region_fields element.now)) rw_values (operation.old, start.old, end.old) }
{
    match RwRegion::read(element) {
        Ok(rw) => {
            *operation = rw.operation.number();
            *start = rw.region.start;
            *end = rw.region.end;
            0
        }
        Err(why) => why.number(),
    }
}

#[unsafe(no_mangle)]
pub extern "C" fn cerberus_rw_region_write(
    operation: u8,
    start: u32,
    end: u32,
    buffer: &mut [u8],
) -> u8
    ensures { outcome result buffer.new ≡ rw_region_write_step end_is_last (record { operation = operation; region = record { start = start; end = end } }) buffer.old }
{
    match Operation::try_from(operation) {
        Ok(operation) => {
            let region = Region { start, end };
            number_of(&RwRegion { operation, region }.write(buffer))
        }
        Err(why) => why.number(),
    }
}
