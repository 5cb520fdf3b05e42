//! Keys for look-ups by hash, from the random source of the system, so that no text knows them.

use coll_table::HashKeys;
use std::io;
use std::random::RandomSource;

/// Keys that are new in each run.
pub fn random_keys(source: &impl RandomSource) -> io::Result<HashKeys> {
    let mut first = [0; 8];
    let mut second = [0; 8];
    source.fill_bytes(&mut first)?;
    source.fill_bytes(&mut second)?;
    Ok(HashKeys::new(u64::from_le_bytes(first), u64::from_le_bytes(second)))
}
