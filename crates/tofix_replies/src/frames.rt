ghost use Rattle.std.specs.Prelude.{◌≡◌, ◌<◌, ◌^◌, length};
ghost use Rattle.sbe_base.specs.Writes.{Writes};
ghost use Rattle.tagvalue_codec.specs.Drafts.{finished};
ghost use Rattle.tagvalue_codec.specs.declared.write.Phase.TheVariants.{Done};
ghost use Rattle.open_framing.specs.Frames.{frame};
ghost use Rattle.open_framing.specs.declared.head.TheConstants.{TAG_VALUE};

use open_framing::{HEAD_BYTES, Head, TAG_VALUE, put_head};
use sbe_base::{Sink, WriteFault, write_all_to};
use tagvalue_codec::FixWriter;

/// Writes the frame of a finished text. Allocates nothing.
///
/// # Errors
///
/// [`WriteFault`] if a write fails. The sink then holds a prefix of the frame.
pub(crate) fn write_frame<O: Sink>(sink: &mut O, out: &mut FixWriter) -> Result<(), WriteFault>
    requires done { out.old.phase ≡ Done }
    requires short { length (finished out.old) < 2 ^ 24 }
    ensures written { Writes (O.state sink.old) (O.state sink.new) (frame TAG_VALUE (finished out.old)) result }
    ensures same { out.new ≡ out.old }
{
    let length = (out.bytes().len() + HEAD_BYTES) as u32;
    let mut head = [0; HEAD_BYTES];
    put_head(
        &Head {
            length,
            encoding: TAG_VALUE,
        },
        &mut head,
    );
    write_all_to(sink, out.framed(&head))
}
