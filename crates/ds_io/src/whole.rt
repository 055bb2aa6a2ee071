//! Whole sources, and whole texts on a sink.
ghost use Rattle.std.specs.Prelude.{◌≡◌, ℕ, List, ◌+◌, ◌<◌, ◌≤◌, IfOk, OnOk, OnErr, IsErrOf, alloc_error, length, take, vec_len};
ghost use Rattle.std.specs.Io.KnownBytes.{Consumes, Appends, IsAtEnd};
ghost use Rattle.ds_base.specs.Counts.{Rose};
ghost use Rattle.ds_io.specs.Counts.{Counts};
ghost use Rattle.ds_io.specs.Ends.{TookOneMore};
ghost use Rattle.ds_io.specs.declared.whole.ReadError.TheVariants.{Fault, Memory};

use crate::stream::{Failed, Sink, Source};
use std::alloc::{AllocError, Global};
use thiserror::Error;

/// The greatest number of bytes that a source may have for [`read_all`]: 4 MiB.
pub const LIMIT: usize = 4_194_304;

// How many bytes one take may give.
const PIECE: usize = 65_536;

/// Why a source was not read to its end.
#[derive(Debug, Drop, Error)]
pub enum ReadError {
    /// A take failed.
    #[error("a take failed")]
    Fault,
    /// The source gave more than [`LIMIT`] bytes.
    #[error("the source has more than {LIMIT} bytes")]
    TooLong,
    /// Memory ran out.
    #[error("out of memory")]
    Memory(AllocError),
}

impl From<Failed> for ReadError {
    ghost from_gives = { λ _ e. e ≡ Fault };

    fn from(_failed: Failed) -> ReadError {
        ReadError::Fault
    }
}

impl From<AllocError> for ReadError {
    ghost from_gives = { λ cause e. e ≡ Memory cause };

    fn from(cause: AllocError) -> ReadError {
        ReadError::Memory(cause)
    }
}

/// Reads a source to its end, and answers all bytes that it gave.
///
/// The source is at its end then. At `TooLong` it has given one byte more than [`LIMIT`], and after
/// every error it lacks the bytes that it gave.
pub fn read_all<S: Source>(alloc: Global, source: &mut S) -> Result<Vec<u8>, ReadError>
    ensures ok { IfOk result (λ v. Consumes (S.left source.old) (S.left source.new) v.items) }
    ensures end { OnOk result (IsAtEnd (S.left source.new)) }
    ensures few { IfOk result (λ v. length v.items ≤ LIMIT) }
    ensures counts { OnOk result (S.faults source.new ≡ S.faults source.old) }
    ensures fault { IsErrOf result ReadError.Fault → Rose (S.faults source.old) (S.faults source.new) }
    ensures too_long { IsErrOf result ReadError.TooLong → TookOneMore LIMIT (S.left source.old) (S.left source.new) }
    ensures too_long_counts { IsErrOf result ReadError.TooLong → S.faults source.new ≡ S.faults source.old }
    ensures memory { IsErrOf result (ReadError.Memory alloc_error) → S.faults source.new ≡ S.faults source.old }
    ensures lost { OnErr result ((bytes : List ℕ) × Consumes (S.left source.old) (S.left source.new) bytes) }
{
    let mut bytes = Vec::new(alloc);
    let mut buffer = new_buffer(alloc)?;
    let piece = buffer.as_mut_slice();
    'pieces: while bytes.len() <= LIMIT {
        let room = (LIMIT + 1 - bytes.len()).min(piece.len());
        match source.take(&mut piece[..room])? {
            0 => return Ok(bytes),
            count => bytes.extend_from_slice(&piece[..count])?,
        }
    }
    Err(ReadError::TooLong)
}

// Room for the bytes of one take. A function of its own, since a long list of zeros slows proofs.
fn new_buffer(alloc: Global) -> Result<Vec<u8>, AllocError>
    ensures { IfOk result (λ v. vec_len v ≡ PIECE) }
{
    vec![in alloc; 0u8; PIECE]
}

/// Puts all of the bytes on a sink, or a first part of them where it fails, which it never does
/// where there are none.
pub fn put_all<K: Sink>(sink: &mut K, bytes: &[u8]) -> Result<(), Failed>
    ensures ok { OnOk result (Appends (K.held sink.old) (K.held sink.new) bytes.now) }
    ensures some { OnErr result (0 < length bytes.now) }
    ensures prefix { OnErr result ((n : ℕ) × (n ≤ length bytes.now) × Appends (K.held sink.old) (K.held sink.new) (take n bytes.now)) }
    ensures counts { Counts result (K.faults sink.old) (K.faults sink.new) }
{
    let mut at = 0;
    'pieces: while at < bytes.len() {
        at += sink.put(&bytes[at..])?;
    }
    Ok(())
}
