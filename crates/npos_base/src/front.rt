//! Bytes that are taken from the front of a list.
ghost use Rattle.std.specs.Prelude.{◌≡◌, ◌≤◌, drop, vec_len};

/// Lets go of the first bytes. Where none go, none are moved, so that the cost of a long value does
/// not depend on how it is cut.
pub fn remove_front(bytes: &mut Vec<u8>, count: usize)
    requires { count ≤ vec_len bytes.old }
    ensures { bytes.new.items ≡ drop count bytes.old.items }
{
    if count == 0 {
        return;
    }
    let left = bytes.len() - count;
    bytes.copy_within(count.., 0);
    bytes.truncate(left);
}
