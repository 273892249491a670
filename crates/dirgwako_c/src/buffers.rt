//! Bytes in C's buffers.
ghost use Rattle.std.specs.Prelude.{◌≡◌, ◌≤◌, ◌++◌, length, drop};
ghost use Rattle.dirgwako_c.specs.Registries.{IsHandedOver};

/// Bytes, at the front of a buffer that has room for them.
fn fill(buffer: &mut [u8], bytes: &[u8])
    requires { length bytes.now ≤ length buffer.old }
    ensures { buffer.new ≡ bytes.now ++ drop (length bytes.now) buffer.old }
{
    buffer[..bytes.len()].copy_from_slice(bytes);
}

/// Bytes, at the front of a buffer; or 37, where it is too short for them. `len` is how many they are.
pub(crate) fn hand_over(bytes: &[u8], buffer: &mut [u8], len: &mut usize) -> u32
    ensures { IsHandedOver bytes.now result buffer.old buffer.new len.new }
{
    *len = bytes.len();
    if bytes.len() > buffer.len() {
        return 37;
    }
    fill(buffer, bytes);
    0
}
