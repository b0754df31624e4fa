//! Why a search gives no rows.
ghost use Rattle.std.specs.Prelude.{◌≡◌};

use std::alloc::AllocError;
use thiserror::Error;

/// Why a search that refuses circles gives no rows.
#[derive(Debug, Drop, Error)]
pub enum SearchFault {
    /// Out of memory. It says nothing about the links.
    #[error("out of memory")]
    OutOfMemory,
    /// Links lead from this number back to itself.
    #[error("links lead from the number {0} back to itself")]
    Circle(usize),
}

impl From<AllocError> for SearchFault {
    ghost use Rattle.base_search.specs.declared.search_fault.SearchFault.TheVariants.{OutOfMemory};

    ghost from_gives = { λ _ fault. fault ≡ OutOfMemory };

    fn from(_error: AllocError) -> SearchFault {
        SearchFault::OutOfMemory
    }
}
