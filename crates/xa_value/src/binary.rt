//! Bytes as hexadecimal digits and in base64, read and printed.
ghost use Rattle.std.specs.Prelude.{◌≡◌, IfOk};
ghost use Rattle.xa_value.specs.Binary.{hex_text, without_blanks, base64_text};
ghost use Rattle.xa_value.specs.parsing.Binary.{read_hex, read_base64};
ghost use Rattle.xa_value.specs.Gives.{Gives};

use crate::bytes::Bytes;
use crate::lexical::is_blank;
use crate::or_memory::OrMemory;
use crate::read_error::ReadError;
use crate::text::Text;
use base64::DecodeAllocError;
use base64::engine::general_purpose::STANDARD;
use hex::FromHexError;
use std::alloc::{AllocError, Global};

/// The bytes of a text of hexadecimal digits, two to a byte.
#[tactic(auto, unfolding(crate::specs::parsing::Binary::read_hex))]
pub(crate) fn read_hex(alloc: Global, text: &[u8]) -> Result<Bytes, OrMemory<ReadError>>
    ensures { Gives result (read_hex text.now) }
{
    match hex::decode(alloc, text) {
        Ok(bytes) => Ok(Bytes::from_vec(bytes)),
        Err(FromHexError::OutOfMemory) => Err(OrMemory::Memory),
        Err(_) => Err(OrMemory::Error(ReadError::NotThisType)),
    }
}

/// The bytes as capital hexadecimal digits.
#[tactic(auto, unfolding(crate::specs::Binary::hex_text))]
pub(crate) fn hex_text(alloc: Global, bytes: &[u8]) -> Result<Text, AllocError>
    ensures { IfOk result (λ t. t ≡ hex_text bytes.now) }
{
    Ok(Text::from_string(hex::encode_upper(alloc, bytes)?))
}

/// The text without its white space.
fn without_blanks(alloc: Global, text: &[u8]) -> Result<Vec<u8>, AllocError>
    ensures { IfOk result (λ v. v.items ≡ without_blanks text.now) }
{
    text.iter()
        .copied()
        .filter(|byte| !is_blank(*byte))
        .collect(alloc)
}

/// The bytes of a text in base64, in which white space does not count.
#[tactic(auto, unfolding(crate::specs::parsing::Binary::read_base64))]
pub(crate) fn read_base64(alloc: Global, text: &[u8]) -> Result<Bytes, OrMemory<ReadError>>
    ensures { Gives result (read_base64 text.now) }
{
    let text = without_blanks(alloc, text)?;
    match STANDARD.decode(alloc, text.as_slice()) {
        Ok(bytes) => Ok(Bytes::from_vec(bytes)),
        Err(DecodeAllocError::OutOfMemory) => Err(OrMemory::Memory),
        Err(DecodeAllocError::DecodeError(_)) => Err(OrMemory::Error(ReadError::NotThisType)),
    }
}

/// The bytes in base64, with padding.
#[tactic(auto, unfolding(crate::specs::Binary::base64_text))]
pub(crate) fn base64_text(alloc: Global, bytes: &[u8]) -> Result<Text, AllocError>
    ensures { IfOk result (λ t. t ≡ base64_text bytes.now) }
{
    Ok(Text::from_string(STANDARD.encode(alloc, bytes)?))
}
