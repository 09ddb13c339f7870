// A flash region (002, Region): the addresses of its first and its last byte.
ghost use Rattle.std.specs.Prelude.{◌≡◌, ◌+◌, ◌^◌, ◌<◌};
ghost use Rattle.refusal.specs.Refusals.{number_of};
ghost use Rattle.refusal.specs.Steps.{outcome, reply_of};
ghost use Rattle.regions.specs.Region.{region_at, end_is_last, read_region, run_region, region_bytes, region_write_step};

use element_parts::{Run, write_verdict};
use octets::LittleEndian;
use refusal::Refusal;

#[derive(Clone, Copy, Debug, PartialEq, Eq, Hash)]
pub struct Region {
    pub start: u32,
    // The last valid address. One past it may not fit, and is never formed.
    pub end: u32,
}

impl Region {
    pub const LEN: usize = 8;

    #[tactic(auto, unfolding(crate::specs::Region::region_number))]
    pub fn read(element: &[u8]) -> Result<Region, Refusal>
        ensures { reply_of result ≡ read_region end_is_last element.now }
    {
        let region = Region::at(element, 0);
        if element.len() != Region::LEN || region.unsound() {
            return Err(Refusal::MalformedElement);
        }
        Ok(region)
    }

    // Region i, from 0, of a run such as a signed image shows; malformed past the last. It alone is judged: where the image was read, so were all.
    pub fn nth(regions: &[u8], i: usize) -> Result<Region, Refusal>
        ensures { reply_of result ≡ run_region end_is_last regions.now i }
    {
        let run = Run {
            bytes: regions,
            width: Region::LEN,
        };
        Region::read(run.nth(i))
    }

    pub fn write(self, buffer: &mut [u8]) -> Result<(), Refusal>
        ensures { outcome (number_of result) buffer.new ≡ region_write_step end_is_last self buffer.old }
    {
        write_verdict(self.unsound(), Region::LEN, buffer.len())?;
        octets::put(buffer, 0, &self.bytes());
        Ok(())
    }

    // The judgement of one region, wherever it stands: this function and the next alone know the rule.
    pub(crate) fn unsound(self) -> bool
        ensures { result ≡ end_is_last.bad_region self }
    {
        self.end < self.start
    }

    // The judgement of the first n regions of a run.
    pub fn any_unsound(run: &[u8], n: u8) -> bool
        ensures { result ≡ end_is_last.bad_regions run.now n }
    {
        (0..n as usize).any(|i| Region::at(run, Region::LEN * i).unsound())
    }

    // The region that the eight bytes from index at on name.
    fn at(b: &[u8], at: usize) -> Region
        requires { at + 4 < 2 ^ 64 }
        ensures { result ≡ region_at b.now at }
    {
        Region {
            start: octets::number_at(b, at),
            end: octets::number_at(b, at + 4),
        }
    }

    pub(crate) fn bytes(self) -> [u8; 8]
        ensures { result ≡ region_bytes self }
    {
        let s = self.start.bytes();
        let e = self.end.bytes();
        [s[0], s[1], s[2], s[3], e[0], e[1], e[2], e[3]]
    }
}
