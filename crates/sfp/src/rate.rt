// Soft rate select.
ghost use Rattle.std.specs.Prelude.{◌≡◌};
ghost use Rattle.sfp.specs.Rate.{selected};

// A rate byte with bit 3 set for 10G and clear for 1G.
#[tactic(auto, unfolding(crate::specs::Rate::selected, hardware::specs::Prog::pick))]
pub fn selected(ten: bool, v: u8) -> u8
    ensures { result ≡ selected ten v }
{
    if ten {
        return v | 0x08;
    }
    v & 0xf7
}
