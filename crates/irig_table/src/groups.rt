// The groups of a frame's pulses: their places among the values, and what each stands for in the paper's table.
ghost use Rattle.std.specs.Prelude.{◌≡◌, ◌≤◌};
ghost use Rattle.irig_table.specs.Paper.{field_of, factor_of};

// The groups of data; a decimal digit is a group of its own.
pub const SECONDS: usize = 3;

pub const TENS_OF_SECONDS: usize = 4;

pub const MINUTES: usize = 5;

pub const TENS_OF_MINUTES: usize = 6;

pub const HOURS: usize = 7;

pub const TENS_OF_HOURS: usize = 8;

pub const DAYS: usize = 9;

pub const TENS_OF_DAYS: usize = 10;

pub const HUNDREDS_OF_DAYS: usize = 11;

pub const YEARS: usize = 12;

pub const TENS_OF_YEARS: usize = 13;

pub const LEAP_PENDING: usize = 14;

pub const DELETION: usize = 15;

pub const CHANGE_PENDING: usize = 16;

pub const SUMMER: usize = 17;

pub const MINUS: usize = 18;

pub const OFFSET_HOURS: usize = 19;

pub const HALF_HOUR: usize = 20;

pub const QUALITY: usize = 21;

pub const PARITY: usize = 22;

pub const SECOND_OF_DAY: usize = 23;

// What a group stands for: one of the paper's fields, and what its weights are to be multiplied by.
#[derive(Clone, Copy, Debug, PartialEq, Eq)]
pub(super) struct Group {
    pub(super) field: u8,
    pub(super) factor: u32,
}

// What a group stands for; no group past the last has a field.
pub(super) fn group_at(group: usize) -> Group
    ensures value { result ≡ record { field = field_of group; factor = factor_of group } }
    ensures upper_bound { result.factor ≤ 100 }
{
    BY_GROUP.get(group).copied().unwrap_or(NO_FIELD)
}

// what a group without a field stands for, and each of the others
const NO_FIELD: Group = Group {
    field: 0,
    factor: 1,
};

const BY_GROUP: [Group; 24] = [
    // always 0, and always 1
    NO_FIELD,
    NO_FIELD,
    // position marks
    Group {
        field: 1,
        factor: 1,
    },
    // second, minute and hour, each with its tens
    Group {
        field: 2,
        factor: 1,
    },
    Group {
        field: 2,
        factor: 10,
    },
    Group {
        field: 3,
        factor: 1,
    },
    Group {
        field: 3,
        factor: 10,
    },
    Group {
        field: 4,
        factor: 1,
    },
    Group {
        field: 4,
        factor: 10,
    },
    // day of the year, and year
    Group {
        field: 5,
        factor: 1,
    },
    Group {
        field: 5,
        factor: 10,
    },
    Group {
        field: 5,
        factor: 100,
    },
    Group {
        field: 6,
        factor: 1,
    },
    Group {
        field: 6,
        factor: 10,
    },
    // flags and offset
    Group {
        field: 7,
        factor: 1,
    },
    Group {
        field: 8,
        factor: 1,
    },
    Group {
        field: 9,
        factor: 1,
    },
    Group {
        field: 10,
        factor: 1,
    },
    Group {
        field: 11,
        factor: 1,
    },
    Group {
        field: 12,
        factor: 1,
    },
    Group {
        field: 13,
        factor: 1,
    },
    // quality, parity and second of the day
    Group {
        field: 14,
        factor: 1,
    },
    Group {
        field: 15,
        factor: 1,
    },
    Group {
        field: 16,
        factor: 1,
    },
];
