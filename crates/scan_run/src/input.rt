//! Reading the input.

ghost use Rattle.std.specs.Prelude.{◌≡◌, ◌<◌, ◌≤◌, length, IfOk, IfErr, OnOk, IsErrOf, vec_len};
ghost use Rattle.std.specs.Io.KnownBytes.{Consumes, IsAtEnd};
ghost use Rattle.scan_world.specs.Faults.{Rose};
ghost use Rattle.run_status.specs.Status.{IsAnswer};
ghost use Rattle.scan_run.specs.Status.{HasInputCause};
ghost use Rattle.scan_run.specs.Streams.{TakesPiece, IsTarget, IsTooLong};
ghost use Rattle.run_status.specs.declared.status.Status.TheVariants.{OverLimit as over_limit};
ghost use Rattle.file_map.specs.declared.limit.LimitKind.TheVariants.{Target as target};

use node_tree::MOST_BYTES;
use run_status::{LimitKind, Status};
use scan_world::Source;
use std::alloc::Global;

// The most bytes that are read: one more than an input may have.
const MOST: usize = MOST_BYTES + 1;

const PIECE: usize = 16384;

// Why an input was not read.
#[derive(Clone, Copy, Debug, PartialEq, Eq)]
enum InputError {
    Memory,
    Failed,
}

// Reads some bytes, by way of a buffer.
fn read_some<S: Source>(
    input: &mut S,
    buf: &mut [u8],
    bytes: &mut Vec<u8>,
) -> Result<usize, InputError>
    requires { 0 < length buf.old }
    ensures piece { IfOk result (TakesPiece (S.left input.old) (S.left input.new) bytes.old.items bytes.new.items) }
    ensures within { IfOk result (λ n. n ≤ length buf.old) }
    ensures end { IfOk result (λ n. n ≡ 0 → IsAtEnd (S.left input.new)) }
    ensures kept { OnOk result (S.faults input.new ≡ S.faults input.old) }
    ensures failed { IsErrOf result InputError.Failed → Rose (S.faults input.old) (S.faults input.new) }
{
    let Ok(count) = input.read(buf) else {
        return Err(InputError::Failed);
    };
    if bytes.extend_from_slice(&buf[..count]).is_err() {
        return Err(InputError::Memory);
    }
    Ok(count)
}

// The bytes to the end of the input, or the first ones of an input that is too long.
fn read_input<S: Source>(alloc: Global, input: &mut S) -> Result<Vec<u8>, InputError>
    ensures bytes { IfOk result (λ v. Consumes (S.left input.old) (S.left input.new) v.items) }
    ensures limit { IfOk result (λ v. vec_len v ≤ MOST) }
    ensures end { IfOk result (λ v. vec_len v < MOST → IsAtEnd (S.left input.new)) }
    ensures kept { OnOk result (S.faults input.new ≡ S.faults input.old) }
    ensures failed { IsErrOf result InputError.Failed → Rose (S.faults input.old) (S.faults input.new) }
{
    let mut buf = [0u8; PIECE];
    let mut bytes = Vec::new(alloc);
    for _ in 0..MOST {
        let left = MOST - bytes.len();
        let want = left.min(PIECE);
        let count = read_some(input, &mut buf[..want], &mut bytes)?;
        if count == 0 || bytes.len() == MOST {
            return Ok(bytes);
        }
    }
    unreachable!()
}

/// The input, which is read to its end. It ends with OverLimit where the input has more than 1,000,000 bytes.
pub fn read_target<S: Source>(alloc: Global, input: &mut S) -> Result<Vec<u8>, Status>
    ensures target { IfOk result (λ v. IsTarget (S.left input.old) v.items) }
    ensures end { OnOk result (IsAtEnd (S.left input.new)) }
    ensures kept { OnOk result (S.faults input.new ≡ S.faults input.old) }
    ensures too_long { IfErr result (λ status. IsAnswer status → (status ≡ over_limit target 1000001) × IsTooLong (S.left input.old)) }
    ensures cause { IfErr result (HasInputCause (S.faults input.old) (S.faults input.new)) }
{
    match read_input(alloc, input) {
        Ok(bytes) if bytes.len() == MOST => {
            Err(Status::OverLimit(LimitKind::Target, MOST as u64))
        }
        Ok(bytes) => Ok(bytes),
        Err(InputError::Memory) => Err(Status::Memory),
        Err(InputError::Failed) => Err(Status::InputFault),
    }
}
