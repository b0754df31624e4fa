//! The second call, after the first was refused.
use std::test::Fail;

/// The number of a refusal for memory.
const OUT_OF_MEMORY: u16 = 1;

/// What the second call made, where the first was refused with this number, that of memory.
pub fn again<A: Drop, E: Drop>(number: u16, second: Result<A, E>) -> Result<A, Fail> {
    if number != OUT_OF_MEMORY {
        drop(second);
        return Err("the first call is refused for another reason than memory".into());
    }
    match second {
        Ok(made) => Ok(made),
        Err(fault) => {
            drop(fault);
            Err("the second call is refused, too".into())
        }
    }
}
