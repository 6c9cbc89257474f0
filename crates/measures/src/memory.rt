//! What the process holds in memory.

use anyhow::{Result, bail};
use std::fs;
use std::rt::Files;

/// The bytes, as Linux tells them in `/proc/self/status`. Refused where it doesn't.
pub fn resident<R: Files + AllocGlobal>(rt: &R) -> Result<u64> {
    let status = fs::read_to_string(rt, "/proc/self/status")?;
    for line in status.as_str().lines() {
        if let Some(size) = line.strip_prefix("VmRSS:") {
            let kilobytes = size.trim().trim_end_matches(" kB").parse::<u64>()?;
            return Ok(kilobytes.saturating_mul(1024));
        }
    }
    bail!("the size of the process can't be read")
}
