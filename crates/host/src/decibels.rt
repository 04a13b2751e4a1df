// The level of a power in dBm, for hosts.
ghost use Rattle.std.specs.Prelude.{◌≡◌};
ghost use Rattle.host.specs.Decibels.{Levelled, decibels_of};

// tenths: the level in tenths of a dBm. number: 0, or 30 where the count is 0, which has no level.
#[repr(C)]
#[derive(Clone, Copy)]
pub struct Decibels {
    pub number: u32,
    pub tenths: i16,
}

#[tactic(auto, unfolding(crate::specs::Decibels::decibels_of))]
fn shown(l: Option<i16>) -> Decibels
    ensures { result ≡ decibels_of l }
{
    match l {
        Some(t) => Decibels {
            number: 0,
            tenths: t,
        },
        None => Decibels {
            number: 30,
            tenths: 0,
        },
    }
}

// count: the power in 0.1 µW.
#[unsafe(no_mangle)]
#[tactic(auto, unfolding(crate::specs::Decibels::Levelled))]
pub extern "C" fn sulfryk_level(count: u16) -> Decibels
    ensures { Levelled count result }
{
    shown(level::lookup::level(count))
}
