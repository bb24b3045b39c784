//! Reading the whole input.
ghost use Rattle.std.specs.Prelude.{◌≡◌, ◌<◌, length, IfOk, IfSome};

use crate::error::RunError;
use std::alloc::{AllocError, Global};
use std::io::Read;

/// How many reads are made at most.
const READS: usize = 1_048_576;

/// How many bytes one read gives at most.
const READ_LENGTH: usize = 65_536;

fn zeros(alloc: Global, count: usize) -> Result<Vec<u8>, AllocError>
    ensures { IfOk result (λ bytes. length bytes.items ≡ count) }
{
    vec![in alloc; 0; count]
}

/// All that the reader has left, by reads into a buffer that isn't empty.
fn read_by<R: Read>(alloc: Global, reader: &mut R, buffer: &mut [u8]) -> Result<Vec<u8>, RunError>
    ensures whole { IfOk result (λ bytes. 0 < length buffer.old
        → IfSome (R.remaining reader.old) (λ left. bytes.items ≡ left)) }
{
    let mut bytes = Vec::new(alloc);
    for _ in 0..READS {
        let Ok(count) = reader.read(buffer) else {
            return Err(RunError::Output);
        };
        if count == 0 {
            return Ok(bytes);
        }
        bytes.extend_from_slice(&buffer[..count])?;
    }
    Err(RunError::Output)
}

/// All that the reader has left.
///
/// # Errors
/// `Output` where a read fails, or where the input isn't at its end after 1,048,576 reads of at
/// most 65,536 bytes; `OutOfMemory` where there is no memory for it.
pub fn read_input<R: Read>(alloc: Global, reader: &mut R) -> Result<Vec<u8>, RunError>
    ensures whole { IfOk result
        (λ bytes. IfSome (R.remaining reader.old) (λ left. bytes.items ≡ left)) }
{
    let mut buffer = zeros(alloc, READ_LENGTH)?;
    read_by(alloc, reader, &mut buffer)
}
