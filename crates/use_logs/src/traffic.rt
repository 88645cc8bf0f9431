//! Requests and bytes.
ghost use Rattle.std.specs.Prelude.{◌≡◌, ◌+◌, IfOk};

use anyhow::bail;

/// The requests of one path, and the bytes that they were sent. That with more requests is greater.
#[derive(Clone, Copy, Debug, PartialEq, Eq, PartialOrd, Ord)]
pub struct Traffic {
    pub requests: u64,
    pub bytes: u64,
}

impl Traffic {
    /// Returns the sums, or an error if one doesn't fit into 64 bits.
    pub fn plus(self, more: Traffic) -> anyhow::Result<Traffic>
        ensures requests { IfOk result (λ all. all.requests ≡ self.requests + more.requests) }
        ensures bytes { IfOk result (λ all. all.bytes ≡ self.bytes + more.bytes) }
    {
        Ok(Traffic {
            requests: sum(self.requests, more.requests)?,
            bytes: sum(self.bytes, more.bytes)?,
        })
    }
}

/// Returns the sum, or an error if it doesn't fit into 64 bits.
pub fn sum(left: u64, right: u64) -> anyhow::Result<u64>
    ensures { IfOk result (λ all. all ≡ left + right) }
{
    let Some(all) = left.checked_add(right) else {
        bail!("a sum doesn't fit into 64 bits");
    };
    Ok(all)
}
