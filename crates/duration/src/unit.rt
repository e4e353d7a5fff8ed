// The seven units of a duration: their texts and their lengths.
ghost use Rattle.std.specs.Prelude.{◌≡◌};
ghost use Rattle.duration.specs.steps.Units.{unit_of};

use crate::span::Duration;

// A unit of a duration.
#[derive(Clone, Copy)]
pub enum Unit {
    Year,
    Week,
    Day,
    Hour,
    Minute,
    Second,
    Milli,
}

// The units in the order in which a text has them.
pub const UNITS: [Unit; 7] = [
    Unit::Year,
    Unit::Week,
    Unit::Day,
    Unit::Hour,
    Unit::Minute,
    Unit::Second,
    Unit::Milli,
];

impl Unit {
    // The unit's text.
    pub fn text(self) -> &'static [u8]
        ensures { result.now ≡ (unit_of self).text }
    {
        match self {
            Unit::Year => b"y",
            Unit::Week => b"w",
            Unit::Day => b"d",
            Unit::Hour => b"h",
            Unit::Minute => b"m",
            Unit::Second => b"s",
            Unit::Milli => b"ms",
        }
    }

    // How many milliseconds the unit has.
    pub fn size(self) -> u64
        ensures { result ≡ (unit_of self).size }
    {
        match self {
            Unit::Year => Duration::YEAR,
            Unit::Week => Duration::WEEK,
            Unit::Day => Duration::DAY,
            Unit::Hour => Duration::HOUR,
            Unit::Minute => Duration::MINUTE,
            Unit::Second => Duration::SECOND,
            Unit::Milli => Duration::MILLI,
        }
    }
}
