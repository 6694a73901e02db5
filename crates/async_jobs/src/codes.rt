ghost use Rattle.std.specs.Prelude.{◌≡◌, ◌%◌, ◌^◌, sum, IfOk};
ghost use Rattle.async_jobs.specs.Work.{IsCode, work_of};

use no_memory::NoMemory;
use sha2::{Digest, Sha256};
use std::alloc::Global;

/// The work that a job's code asks for. Code 1 is the bytes reversed. Code 2 is the sum of the bytes, modulo 2^64, as 8 bytes
/// with the most significant first. Code 3 is the SHA-256 of the bytes, 32 bytes.
pub fn work(alloc: Global, code: u8, input: &[u8]) -> Result<Vec<u8>, NoMemory>
    requires { IsCode code }
    ensures { IfOk result (λ output. output.items ≡ work_of code input.now) }
{
    let mut output = Vec::new(alloc);
    match code {
        1 => {
            output.extend_from_slice(input)?;
            output.reverse();
        }
        2 => output.extend_from_slice(&sum(input).to_be_bytes())?,
        _ => output.extend_from_slice(&Sha256::digest(input))?,
    }
    Ok(output)
}

// The sum of the bytes, modulo 2^64.
fn sum(bytes: &[u8]) -> u64
    ensures { result ≡ sum bytes.now % 2 ^ 64 }
{
    let mut total: u64 = 0;
    for byte in bytes {
        total = total.wrapping_add(u64::from(*byte));
    }
    total
}
