ghost use Rattle.std.specs.Prelude.{◌≡◌};
ghost use Rattle.level.specs.Level.{level_number};

// The papers' number of a failure, or 0.
pub fn level_number(l: Option<i16>) -> u8
    ensures { result ≡ level_number l }
{
    match l {
        Some(_) => 0,
        None => 30,
    }
}
