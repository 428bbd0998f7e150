// The fields of a frame, from what each group of its pulses adds up to, and the reading that they say.
ghost use Rattle.std.specs.Prelude.{◌≡◌, ◌+◌, ◌*◌, ◌<◌, ◌≤◌};
ghost use Rattle.pulses.specs.Row.{first_data, over_nine, sums_of};
ghost use Rattle.irig_table.specs.Table.{frame_pulses, parity};
ghost use Rattle.irig.specs.Meaning.{said, is_set, Small, day_in, halves_in, reading_of, second_of_day_at};

use super::offset::amount_of;
use calendar::days::month_day;
use calendar::months::is_leap;
use irig_table::groups;
use reading::Reading;
use reading::years::year_of;

// What each group of a frame's pulses adds up to.
#[derive(Clone, Copy, Debug, PartialEq, Eq)]
pub(crate) struct Sums {
    pub(crate) of_group: [u32; 32],
    // the groups of a field have four pulses at most, so that each says a number below 16
    pub(crate) ghost small: { Small of_group },
}

impl Sums {
    #[tactic(auto, using(crate::proofs::GroupLaws::sums_small))]
    pub(crate) fn of(frame: &[u8]) -> Self
        ensures { result.of_group ≡ sums_of frame_pulses frame.now }
    {
        Sums {
            of_group: irig_table::sums(frame),
        }
    }

    // A group of four pulses at most. A group is a number with a name, as it is the place of a sum; each function asks for the bound it needs.
    fn digit(&self, group: usize) -> u8
        requires { (first_data ≤ group) × (group ≤ parity) }
        ensures value { result ≡ said self.now.of_group group }
        ensures upper_bound { result < 16 }
    {
        self.of_group[group] as u8
    }

    // A decimal digit and the tens in the group after it.
    fn two(&self, group: usize) -> u8
        requires { (first_data ≤ group) × (group < parity) }
        ensures value { result ≡ said self.now.of_group group + 10 * said self.now.of_group (group + 1) }
        ensures upper_bound { result < 166 }
    {
        self.digit(group) + 10 * self.digit(group + 1)
    }

    pub(crate) fn is_set(&self, group: usize) -> bool
        requires { group < 32 }
        ensures { result ≡ is_set self.now.of_group group }
    {
        self.of_group[group] == 1
    }

    pub(crate) fn over_nine(&self, group: usize) -> bool
        requires { group < 32 }
        ensures { result ≡ over_nine self.now.of_group group }
    {
        9 < self.of_group[group]
    }

    // The day of the year.
    #[tactic(auto, unfolding(crate::specs::Meaning::day_in))]
    pub(crate) fn day(&self) -> u16
        ensures { result ≡ day_in self.now.of_group }
    {
        u16::from(self.two(groups::DAYS)) + 100 * u16::from(self.digit(groups::HUNDREDS_OF_DAYS))
    }

    // The half hours of the offset.
    #[tactic(auto, unfolding(crate::specs::Meaning::halves_in))]
    pub(crate) fn half_hours(&self) -> u8
        ensures { result ≡ halves_in self.now.of_group }
    {
        2 * self.digit(groups::OFFSET_HOURS) + self.digit(groups::HALF_HOUR)
    }

    // By `month_day`, whose 0, 0 is no day: `reading_of` gives any values a reading, and the day is judged after it.
    pub(crate) fn reading(&self, base: u16) -> Reading
        ensures { result ≡ reading_of base self.now.of_group }
    {
        let year = year_of(base, self.two(groups::YEARS));
        let date = month_day(is_leap(year), self.day());
        let offset = amount_of(self.is_set(groups::MINUS), self.half_hours()).local();
        Reading {
            year,
            month: date.month,
            day: date.day,
            hour: self.two(groups::HOURS),
            minute: self.two(groups::MINUTES),
            second: self.two(groups::SECONDS),
            offset,
            summer: self.is_set(groups::SUMMER),
            leap: self.is_set(groups::LEAP_PENDING),
            change: self.is_set(groups::CHANGE_PENDING),
            quality: self.digit(groups::QUALITY),
        }
    }
}

pub(crate) fn second_of_day(r: Reading) -> u32
    ensures { result ≡ second_of_day_at r.hour r.minute r.second }
{
    u32::from(r.hour) * 3600 + u32::from(r.minute) * 60 + u32::from(r.second)
}
