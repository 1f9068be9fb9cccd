//! The definitions, computed on worked messages. Each law states how one body is read, or how one message is written.

ghost use Rattle.std.specs.Prelude.{◌≡◌, Ok, Err, Some, None};
ghost use Rattle.sbe_wire.specs.Reading.{message_of};
ghost use Rattle.sbe_wire.specs.Canonical.{canonical};
ghost use Rattle.sbe_wire.specs.Misfit.{misfit};
ghost use Rattle.sbe_wire.specs.Rows.Schemas.{schema7, event0, event2, one_data, mixed};
ghost use Rattle.sbe_wire.specs.Rows.Bodies.{big_count_body, big_count_fault, big_cut_body, big_cut_fault, event_earlier_body, event_earlier_message, event_later_body, event_later_message, grp_body, grp_message, grp_written_body, misread_body, misread_message, mixed_body, mixed_message, mixed_out_of_range_body, mixed_out_of_range_fault, nest_body, nest_message, nest_written_body, nul_body, nul_by_number_message, nul_by_number_misfit, nul_message, one_body, one_fault, ping_body, ping_message, ping_trailed_body, ping_trailed_fault};

/// Two numbers; the second one is null.
pub fn ping_is_read()
    ensures { message_of schema7 ping_body ≡ Ok ping_message }
{}

/// A byte after the last part, at the schema's own version.
pub fn trailing_byte_is_refused()
    ensures { message_of schema7 ping_trailed_body ≡ Err ping_trailed_fault }
{}

/// A number that is the null of its optional field.
pub fn null_is_read()
    ensures { message_of schema7 nul_body ≡ Ok nul_message }
{}

/// The null of the type, in a required field.
pub fn null_of_required_is_refused()
    ensures { message_of schema7 one_body ≡ Err one_fault }
{}

/// A group whose dimension has padding.
pub fn padded_dimension_is_read()
    ensures { message_of schema7 grp_body ≡ Ok grp_message }
{}

/// A group with a group and data in its entries.
pub fn nested_group_is_read()
    ensures { message_of schema7 nest_body ≡ Ok nest_message }
{}

/// A message of a later version: an unlisted number of an enum, and bytes that the schema doesn't know.
pub fn later_version_is_read()
    ensures { message_of event0 event_later_body ≡ Ok event_later_message }
{}

/// A message of an earlier version: the field and the data that were added later are absent.
pub fn earlier_version_is_read()
    ensures { message_of event2 event_earlier_body ≡ Ok event_earlier_message }
{}

/// An entry that extends past the end.
pub fn cut_entry_is_refused()
    ensures { message_of schema7 big_cut_body ≡ Err big_cut_fault }
{}

/// A count outside its range.
pub fn null_count_is_refused()
    ensures { message_of schema7 big_count_body ≡ Err big_count_fault }
{}

/// A message of a schema in which a group was added before the data.
pub fn added_group_is_misread()
    ensures { message_of one_data misread_body ≡ Ok misread_message }
{}

/// A composite, a set, a text and an array, in big-endian order.
pub fn mixed_fields_are_read()
    ensures { message_of mixed mixed_body ≡ Ok mixed_message }
{}

/// An element that is the null of a required array.
pub fn bad_element_is_refused()
    ensures { message_of mixed mixed_out_of_range_body ≡ Err mixed_out_of_range_fault }
{}

/// A message that was read is written back.
pub fn ping_is_written()
    ensures { canonical schema7 ping_message ≡ Some ping_body }
{}

/// The padding of a dimension is written as zeros.
pub fn padding_is_written_as_zeros()
    ensures { canonical schema7 grp_message ≡ Some grp_written_body }
{}

/// A group without entries is written with the declared block length.
pub fn block_length_is_written_of_no_entry()
    ensures { canonical schema7 nest_message ≡ Some nest_written_body }
{}

/// The number that is the null isn't a value of its field.
pub fn null_by_number_is_refused()
    ensures { misfit schema7 nul_by_number_message 65530 ≡ Some nul_by_number_misfit }
{}

/// A message that was read can be written, within its own length.
pub fn ping_has_no_misfit()
    ensures { misfit schema7 ping_message 14 ≡ None }
{}
