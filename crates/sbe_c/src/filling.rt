//! The caller's buffers.
ghost use Rattle.std.specs.Prelude.{◌≡◌};
ghost use Rattle.sbe_c.specs.Filling.{filled};

/// Writes the first items into a buffer, as many as it has room for. The rest of the buffer is unchanged.
pub fn fill<T: Copy>(buffer: &mut [T], items: &[T])
    ensures { buffer.new ≡ filled items.now buffer.old }
{
    let n = buffer.len().min(items.len());
    buffer[..n].copy_from_slice(&items[..n]);
}
