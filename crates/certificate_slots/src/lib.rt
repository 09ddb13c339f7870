// The certificate slots of a device, as its challenge response tells them (document 02, Item 14): how many hold a chain, and which is the lowest.
#![tactic(auto)]

ghost use Rattle.std.specs.Prelude.{◌≡◌, option_map};
ghost use Rattle.certificate_slots.specs.Slots.{chain_count, lowest_chain};

// The number of a certificate slot, 0 to 7.
#[derive(Clone, Copy, Debug, PartialEq, Eq, Hash)]
pub struct CertificateSlot(pub u8);

// A bit for each slot, set where the slot holds a chain; slot 0 is the bit worth 1.
#[derive(Clone, Copy, Debug, PartialEq, Eq, Hash)]
pub struct SlotMask(pub u8);

impl SlotMask {
    // How many slots hold a chain.
    #[tactic(auto, using(crate::proofs::Meaning::count_of_ones))]
    pub fn chain_count(self) -> u8
        ensures { result ≡ chain_count self.0 }
    {
        u8::count_ones(self.0) as u8
    }

    // The lowest slot that holds a chain: `None` where no slot does.
    #[tactic(auto, using(crate::proofs::Meaning::lowest_none, crate::proofs::Meaning::lowest_some))]
    pub fn lowest(self) -> Option<CertificateSlot>
        ensures { option_map (λ s. s.0) result ≡ lowest_chain self.0 }
    {
        let below = u8::trailing_zeros(self.0);
        if below >= 8 {
            return None;
        }
        Some(CertificateSlot(below as u8))
    }
}
