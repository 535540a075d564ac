// Bytes in hexadecimal, two capital digits each.
ghost use Rattle.std.specs.Prelude.{◌≡◌, IfOk, string_bytes};
ghost use Rattle.text.specs.Hex.{hex_byte, hex_bytes};

use std::alloc::{AllocError, Global};

// A byte as two hexadecimal digits.
#[tactic(auto, using(crate::proofs::Written::encode_byte_is))]
pub fn hex_byte(heap: Global, byte: u8) -> Result<String, AllocError>
    ensures { IfOk result (λ s. string_bytes s ≡ hex_byte byte) }
{
    hex::encode_upper(heap, [byte])
}

// Bytes one after another, with nothing between them.
pub fn hex_bytes(heap: Global, bytes: &[u8]) -> Result<String, AllocError>
    ensures { IfOk result (λ s. string_bytes s ≡ hex_bytes bytes.now) }
{
    hex::encode_upper(heap, bytes)
}
