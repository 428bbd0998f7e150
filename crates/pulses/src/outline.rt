// The outline of a row of pulses: marks where the table has them, and 0 or 1 elsewhere.
ghost use Rattle.std.specs.Prelude.{◌≡◌};
ghost use Rattle.pulses.specs.Outline.{in_outline, outline_of};

use super::group_of;

#[tactic(auto, unfolding(crate::specs::Outline::in_outline))]
fn in_outline(entry: u32, pulse: u8) -> bool
    ensures { result ≡ in_outline entry pulse }
{
    if group_of(entry) == 2 {
        return pulse == 2;
    }
    pulse < 2
}

// Whether there are as many pulses as the table has places, each in the outline; leaves at the first that is not.
pub fn outlined(table: &[u32], pulses: &[u8]) -> bool
    ensures { result ≡ outline_of table.now pulses.now }
{
    pulses.len() == table.len()
        && table
            .iter()
            .zip(pulses)
            .all(|(entry, pulse)| in_outline(*entry, *pulse))
}
