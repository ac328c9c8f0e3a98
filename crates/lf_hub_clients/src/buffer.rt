//! Buffers whose bytes leave at the front.

ghost use Rattle.std.specs.Prelude.{◌≡◌, ◌≤◌, ◌+◌, ◌-◌, ◌++◌, drop, length, vec_capacity, vec_len};

/// Removes the first bytes of a buffer.
fn remove_front(bytes: &mut Vec<u8>, count: usize)
    requires { count ≤ vec_len bytes.old }
    ensures items { bytes.new.items ≡ drop count bytes.old.items }
    ensures len { vec_len bytes.new ≡ vec_len bytes.old - count }
    ensures capacity { vec_capacity bytes.new ≡ vec_capacity bytes.old }
{
    let len = bytes.len();
    bytes.as_mut_slice().copy_within(count..len, 0);
    bytes.truncate(len - count);
}

/// Removes the first `count` bytes of a buffer if they are at least half of it, and returns how many
/// were removed. So each byte is moved at most once on average.
pub(crate) fn compact(bytes: &mut Vec<u8>, count: usize) -> usize
    requires { count ≤ vec_len bytes.old }
    ensures within { result ≤ count }
    ensures items { bytes.new.items ≡ drop result bytes.old.items }
    ensures len { vec_len bytes.new + result ≡ vec_len bytes.old }
    ensures capacity { vec_capacity bytes.new ≡ vec_capacity bytes.old }
{
    if count < bytes.len() - count {
        return 0;
    }
    remove_front(bytes, count);
    count
}

/// Appends bytes to a buffer that has room for them.
pub(crate) fn append(buffer: &mut Vec<u8>, bytes: &[u8])
    requires room { vec_len buffer.old + length bytes.now ≤ vec_capacity buffer.old }
    ensures items { buffer.new.items ≡ buffer.old.items ++ bytes.now }
    ensures len { vec_len buffer.new ≡ vec_len buffer.old + length bytes.now }
    ensures capacity { vec_capacity buffer.old ≤ vec_capacity buffer.new }
{
    if buffer.extend_from_slice(bytes).is_err() {
        unreachable!();
    }
}
