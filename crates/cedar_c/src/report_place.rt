//! How far a report has been written, for C.
ghost use Rattle.std.specs.Prelude.{◌≡◌, ◌≢◌, ◌<◌, ◌^◌, Some};
ghost use Rattle.cedar_c.specs.ReportPlaces.{limit_of, place_of};

use cedar_files::ReportPlace as Place;

/// How far a report has been written.
#[repr(C)]
#[derive(Clone, Copy)]
pub struct ReportPlace {
    /// How many of the policies have been reported on.
    pub(crate) policy: u64,
    /// How many faults these have.
    pub(crate) faults: u64,
    /// How many warnings these have.
    pub(crate) warnings: u64,
    /// How many lines of faults and warnings may still be written, or 2^64 - 1 without a limit.
    pub(crate) lines: u64,
}

fn limit_of(lines: u64) -> Option<u64>
    ensures { result ≡ limit_of lines }
{
    if lines == u64::MAX {
        return None;
    }
    Some(lines)
}

impl ReportPlace {
    /// The place that C gives.
    pub(crate) fn place(self) -> Place
        ensures place { result ≡ place_of self }
        ensures fits { self.lines < 2 ^ 64 }
    {
        Place {
            policy: self.policy as usize,
            faults: self.faults,
            warnings: self.warnings,
            lines: limit_of(self.lines),
        }
    }

    /// The place that C is given.
    pub(crate) fn of(place: Place) -> ReportPlace
        ensures place { place.lines ≢ Some 18446744073709551615 → place_of result ≡ place }
        ensures faults { result.faults ≡ place.faults }
    {
        ReportPlace {
            policy: place.policy as u64,
            faults: place.faults,
            warnings: place.warnings,
            lines: place.lines.unwrap_or(u64::MAX),
        }
    }
}
