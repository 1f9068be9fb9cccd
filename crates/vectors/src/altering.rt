ghost use Rattle.std.specs.Prelude.{◌≡◌};
ghost use Rattle.vectors.specs.Altered.{altered};

/// Alters one byte of a body: the byte at `index` modulo the body's length is increased by 1, and becomes 00 if it was
/// ff. An empty body stays empty.
pub fn alter(body: &mut [u8], index: u64)
    ensures { body.new ≡ altered body.old index }
{
    if body.is_empty() {
        return;
    }
    let place = (index % body.len() as u64) as usize;
    body[place] = body[place].wrapping_add(1);
}
