//! The units of a duration.
ghost use Rattle.std.specs.Prelude.{◌≡◌};
ghost use Rattle.cedar_ext_time.specs.Units.{name_of, milliseconds_of, units};

// A unit of a duration.
#[derive(Clone, Copy)]
pub(crate) enum Unit {
    Days,
    Hours,
    Minutes,
    Seconds,
    Milliseconds,
}

// The units in the order in which a duration has them.
pub(crate) const UNITS: [Unit; 5] = [
    Unit::Days,
    Unit::Hours,
    Unit::Minutes,
    Unit::Seconds,
    Unit::Milliseconds,
];

impl Unit {
    // How the unit is written.
    pub(crate) fn name(self) -> &'static [u8]
        ensures { result.now ≡ name_of self }
    {
        match self {
            Unit::Days => b"d",
            Unit::Hours => b"h",
            Unit::Minutes => b"m",
            Unit::Seconds => b"s",
            Unit::Milliseconds => b"ms",
        }
    }

    // How many milliseconds the unit has.
    pub(crate) fn milliseconds(self) -> u64
        ensures { result ≡ milliseconds_of self }
    {
        match self {
            Unit::Days => 86_400_000,
            Unit::Hours => 3_600_000,
            Unit::Minutes => 60_000,
            Unit::Seconds => 1_000,
            Unit::Milliseconds => 1,
        }
    }
}
