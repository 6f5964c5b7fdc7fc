ghost use Rattle.std.specs.Prelude.{◌≡◌, ◌++◌, IfOk};
ghost use Rattle.std.proofs.Common.{rules};
ghost use Rattle.byteorder.specs.Endian.{big_number};
ghost use Rattle.sha2.specs.Sha256.{sha256};
ghost use Rattle.inc_wire.specs.Forms.{job_hash_of};

use crate::put::fields;
use byteorder::{BigEndian, ByteOrder};
use inc_base::{Copied, Job, Memory};
use sha2::{Digest, Sha256};
use std::alloc::Global;

/// A fingerprint: the SHA-256 of bytes.
#[derive(Clone, Copy, Debug, PartialEq, Eq)]
pub struct Print(pub [u8; 32]);

impl Copied for Print {
    ghost same = { Prim.search rules };
}

/// The print of bytes.
pub fn print_of(b: &[u8]) -> Print
    ensures { result.0 ≡ sha256 b.now }
{
    let mut hasher = Sha256::new();
    hasher.update(b);
    Print(hasher.finalize())
}

/// The hash of a job, which names what is published for it: the first 16 bytes of the SHA-256 of the
/// job's header of format 1 and its text. `Memory` where there is no memory for the header.
/// (docs/PROTOCOL.md, "Names")
pub fn job_hash(alloc: Global, job: &Job) -> Result<u128, Memory>
    ensures { IfOk result (λ hash. hash ≡ job_hash_of job.now) }
{
    let header = fields(alloc, 1, job.compiler, &job.krate)?;
    Ok(front_number(digest_of(header.as_slice(), job.text.as_slice())))
}

/// The digest of two pieces taken as one message.
fn digest_of(first: &[u8], second: &[u8]) -> [u8; 32]
    ensures { result ≡ sha256 (first.now ++ second.now) }
{
    let mut hasher = Sha256::new();
    hasher.update(first);
    hasher.update(second);
    hasher.finalize()
}

fn front_number(digest: [u8; 32]) -> u128
    ensures { result ≡ big_number 16 digest }
{
    BigEndian::read_u128(&digest)
}
