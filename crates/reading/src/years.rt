// The base year, the hundred years that start with it, and the two digits that name one of them. A base is any number here, and other than
// 1990 and 2000 it is refused by 19: a type of the two alone would ask more of the callers of every public function.
ghost use Rattle.std.specs.Prelude.{◌≡◌};
ghost use Rattle.reading.specs.Years.{is_base, in_hundred, year_of};

#[tactic(auto, unfolding(crate::specs::Years::is_base))]
pub fn is_base(base: u16) -> bool
    ensures { result ≡ is_base base }
{
    (base == 1990) | (base == 2000)
}

// Any other number counts as 2000; readers and writers have refused it before. Each hundred has its own numbers, which costs less than
// working them out.
#[tactic(auto, unfolding(crate::specs::Years::first_year, crate::specs::Years::in_hundred))]
pub fn in_hundred(base: u16, year: u16) -> bool
    ensures { result ≡ in_hundred base year }
{
    if base == 1990 {
        (1990..2090).contains(&year)
    } else {
        (2000..2100).contains(&year)
    }
}

#[tactic(auto, unfolding(crate::specs::Years::first_year, crate::specs::Years::year_of))]
pub fn year_of(base: u16, digits: u8) -> u16
    ensures { result ≡ year_of base digits }
{
    if base == 1990 {
        1990 + (u16::from(digits) + 10) % 100
    } else {
        2000 + u16::from(digits) % 100
    }
}
