//! Laws of the definitions, stated as functions without a body.

ghost use Rattle.command_steps.specs.Splits.{IsReading};
ghost use Rattle.raw_fix.specs.Raw.{Texts};
ghost use Rattle.raw_reading.specs.Reading.{raw_reading};

/// A stream is split into its items in exactly one way, items at its front are its first items, and they can be taken
/// item by item.
pub fn is_a_reading()
    ensures { (texts : Texts) → IsReading (raw_reading texts) }
{}
