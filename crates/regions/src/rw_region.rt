// An R/W region (002, RWRegion): a part of flash that holds R/W data, and what is done with it when an update fails authentication.
ghost use Rattle.std.specs.Prelude.{◌≡◌};
ghost use Rattle.refusal.specs.Refusals.{number_of};
ghost use Rattle.refusal.specs.Steps.{outcome, reply, reply_by};
ghost use Rattle.element_parts.specs.Parts.{read_number};
ghost use Rattle.regions.specs.Region.{end_is_last};
ghost use Rattle.regions.specs.RwRegion.{operation_number, bad_operation, rw_fields_of, rw_region_fields, rw_region_number, rw_region_write_step};

use crate::region::Region;
use element_parts::write_verdict;
use refusal::Refusal;

#[derive(Clone, Copy, Debug, PartialEq, Eq, Hash)]
pub enum Operation {
    Nothing,
    Restore,
    Erase,
    // Means nothing, but is shown and written as itself.
    Reserved,
}

#[derive(Clone, Copy, Debug, PartialEq, Eq, Hash)]
pub struct RwRegion {
    pub operation: Operation,
    pub region: Region,
}

impl Operation {
    pub fn number(self) -> u8
        ensures { result ≡ operation_number self }
    {
        match self {
            Operation::Nothing => 0,
            Operation::Restore => 1,
            Operation::Erase => 2,
            Operation::Reserved => 3,
        }
    }
}

// One that two bits can't hold is no operation.
impl TryFrom<u8> for Operation {
    type Error = Refusal;

    ghost try_from_gives = { λ number answer. reply_by operation_number answer ≡ reply (read_number (bad_operation number)) number };

    fn try_from(number: u8) -> Result<Operation, Refusal> {
        if number >> 2 != 0 {
            return Err(Refusal::MalformedElement);
        }
        Ok(match number & 3 {
            0 => Operation::Nothing,
            1 => Operation::Restore,
            2 => Operation::Erase,
            _ => Operation::Reserved,
        })
    }
}

impl RwRegion {
    pub const LEN: usize = 12;

    #[tactic(auto, unfolding(crate::specs::Region::region_number, crate::specs::RwRegion::rw_region_number))]
    pub fn read(element: &[u8]) -> Result<RwRegion, Refusal>
        ensures { reply_by rw_fields_of result ≡ reply (rw_region_number end_is_last element.now) (rw_region_fields element.now) }
    {
        let [operation, 0, 0, 0, region @ ..] = element else {
            return Err(Refusal::MalformedElement);
        };
        Ok(RwRegion {
            operation: Operation::try_from(*operation)?,
            region: Region::read(region)?,
        })
    }

    pub fn write(self, buffer: &mut [u8]) -> Result<(), Refusal>
        ensures { outcome (number_of result) buffer.new ≡ rw_region_write_step end_is_last (rw_fields_of self) buffer.old }
    {
        write_verdict(self.region.unsound(), RwRegion::LEN, buffer.len())?;
        let head = [self.operation.number(), 0, 0, 0];
        octets::put(buffer, 0, &head);
        octets::put(buffer, head.len(), &self.region.bytes());
        Ok(())
    }
}
