//! What is written into a buffer of the caller.
ghost use Rattle.std.specs.Prelude.{◌≡◌, ◌≤◌, length};
ghost use Rattle.npos_c.specs.Buffers.{over};

/// Puts the bytes at the front of a buffer in which they have room.
pub fn put_bytes(buffer: &mut [u8], bytes: &[u8])
    requires { length bytes.now ≤ length buffer.old }
    ensures { buffer.new ≡ over bytes.now buffer.old }
{
    buffer[..bytes.len()].copy_from_slice(bytes);
}

/// Puts the members at the front of a buffer in which they have room.
pub fn put_members(buffer: &mut [u16], members: &[u16])
    requires { length members.now ≤ length buffer.old }
    ensures { buffer.new ≡ over members.now buffer.old }
{
    buffer[..members.len()].copy_from_slice(members);
}

/// Puts the voters at the front of a buffer in which they have room.
pub fn put_voters(buffer: &mut [u32], voters: &[u32])
    requires { length voters.now ≤ length buffer.old }
    ensures { buffer.new ≡ over voters.now buffer.old }
{
    buffer[..voters.len()].copy_from_slice(voters);
}
