// How the clock strings show a flag and a quality.
ghost use Rattle.std.specs.Prelude.{◌≡◌};
ghost use Rattle.strings.specs.Letters.{mark, quality_of, quality_unshown};

// A flag's letter where it is set, else a space.
pub fn mark(flag: bool, letter: u8) -> u8
    ensures { result ≡ mark flag letter }
{
    if flag { letter } else { b' ' }
}

// The quality that a string says, which tells only whether the clock has failed.
pub fn quality_of(failed: bool) -> u8
    ensures { result ≡ quality_of failed }
{
    if failed { 15 } else { 0 }
}

// Whether no string can say a quality: one between locked and failed.
pub fn quality_unshown(quality: u8) -> bool
    ensures { result ≡ quality_unshown quality }
{
    (1..=14).contains(&quality)
}
