//! Ids of what stands in a page: digits of a digest, which stay the same from run to run.
ghost use Rattle.std.specs.Prelude.{◌≡◌, ◌++◌, OnOk, string_bytes};
ghost use Rattle.redraw_run.specs.Id as spec;

use itoa::Buffer;
use sha2::{Digest, Sha256};
use std::alloc::{AllocError, Global};

/// The first bytes of the SHA-256 digest of a text.
pub fn digest_of(text: &str) -> [u8; 8]
    ensures value { result ≡ spec.digest text.now }
{
    let whole: [u8; 32] = Sha256::digest(text.as_bytes());
    [
        whole[0], whole[1], whole[2], whole[3], whole[4], whole[5], whole[6], whole[7],
    ]
}

/// An id of a report: the digest of what it says, and which of those with this digest it is, from 1.
#[derive(Clone, Copy)]
pub struct ReportId {
    pub digest: [u8; 8],
    pub number: u64,
}

impl ReportId {
    /// Adds it as it stands in a page: the digits of the digest, and a number after the first.
    pub fn add_to(&self, alloc: Global, text: &mut String) -> Result<(), AllocError>
        ensures added { OnOk result (string_bytes text.new
            ≡ string_bytes text.old ++ spec.report_id self.now.digest self.now.number) }
    {
        let digits = hex::encode(alloc, self.digest)?;
        text.push_str(digits.as_str())?;
        if self.number != 1 {
            let mut buffer = Buffer::new();
            text.push_str("-")?;
            text.push_str(buffer.format(self.number))?;
        }
        Ok(())
    }
}

/// Adds the class of what lies in the file of this name.
pub fn add_file_class(alloc: Global, name: &str, text: &mut String) -> Result<(), AllocError>
    ensures added { OnOk result (string_bytes text.new ≡ string_bytes text.old ++ spec.file_class name.now) }
{
    let digits = hex::encode(alloc, digest_of(name))?;
    text.push_str("f")?;
    text.push_str(digits.as_str())
}
