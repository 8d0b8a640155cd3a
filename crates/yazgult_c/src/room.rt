//! Handing bytes to a caller who has only so much room.

ghost use Rattle.yazgult_c.specs.GivenBytes.{IsGiven};

/// Fills the output with as many of the bytes as there is room for, and answers how many there are.
pub fn give(bytes: &[u8], output: &mut [u8]) -> usize
    ensures given { IsGiven bytes.now output.old output.new result }
{
    let count = bytes.len().min(output.len());
    output[..count].copy_from_slice(&bytes[..count]);
    bytes.len()
}
