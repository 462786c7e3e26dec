//! The room that a caller brings for an answer.

ghost use Rattle.std.specs.Prelude.{◌≡◌, ◌<◌, ◌≤◌, length, IsTrue, IsFalse};
ghost use Rattle.c_report.specs.Rooms.{over};

/// Writes bytes over the first ones of `out`, as far as they fit, and their number into `size`.
pub(crate) fn put(bytes: &[u8], out: &mut [u8], size: &mut usize)
    ensures written { out.new ≡ over bytes.now out.old }
    ensures sized { size.new ≡ length bytes.now }
{
    let fit = bytes.len().min(out.len());
    out[..fit].copy_from_slice(&bytes[..fit]);
    *size = bytes.len();
}

/// The same if all of them fit, which is answered; else only their number.
pub(crate) fn put_whole(bytes: &[u8], out: &mut [u8], size: &mut usize) -> bool
    ensures fits { IsTrue result → length bytes.now ≤ length out.old }
    ensures written { IsTrue result → out.new ≡ over bytes.now out.old }
    ensures more { IsFalse result → length out.old < length bytes.now }
    ensures kept { IsFalse result → out.new ≡ out.old }
    ensures sized { size.new ≡ length bytes.now }
{
    if out.len() < bytes.len() {
        *size = bytes.len();
        return false;
    }
    put(bytes, out, size);
    true
}
