//! The definition of a schema file, computed on small files. Each law states what one file is read as.

ghost use Rattle.std.specs.Prelude.{◌≡◌, codes, Ok, Err};
ghost use Rattle.json_elements.specs.declared.refusal.Cause.TheVariants.{Xml, NotJson, Shape, Missing, BadAttribute, Limit};
ghost use Rattle.json_elements.specs.Reading.{refusal};
ghost use Rattle.sbe_schema.specs.Schemas.{schema_of};
ghost use Rattle.schema_file_rows.specs.Rows.{deep_member_file, deep_part_file, defaults_file, defaults_schema, long_array_file, no_id_file, null_content_file, null_id_file, ping_file, ping_schema, two_colons_file, two_faults_file, types_file, word_file, xml_file};

/// A file that begins with a tag, after white space.
pub fn begins_as_xml_does()
    ensures { schema_of xml_file ≡ Err (refusal Xml (codes "")) }
{}

/// A bare word.
pub fn is_no_value()
    ensures { schema_of word_file ≡ Err (refusal NotJson (codes "")) }
{}

/// Another element at the top: the path is empty.
pub fn has_another_root()
    ensures { schema_of types_file ≡ Err (refusal Shape (codes "")) }
{}

/// A name with two colons: only what ends at the first one is a prefix.
pub fn keeps_the_second_colon()
    ensures { schema_of two_colons_file ≡ Err (refusal Shape (codes "")) }
{}

/// Content that isn't an array is reported before a missing attribute, at the element.
pub fn has_no_children_list()
    ensures { schema_of null_content_file ≡ Err (refusal Shape (codes "/messageSchema")) }
{}

/// A required attribute is missing.
pub fn needs_an_id()
    ensures { schema_of no_id_file ≡ Err (refusal Missing (codes "/messageSchema/id")) }
{}

/// A null is present, and has a bad form.
pub fn has_a_null_id()
    ensures { schema_of null_id_file ≡ Err (refusal BadAttribute (codes "/messageSchema/id")) }
{}

/// Of two bad attributes the first one in the table is reported.
pub fn is_judged_in_order()
    ensures { schema_of two_faults_file ≡ Err (refusal BadAttribute (codes "/messageSchema/package")) }
{}

/// A length above its limit.
pub fn is_too_long_an_array()
    ensures { schema_of long_array_file ≡ Err (refusal Limit (codes "/messageSchema/content/0/types/content/0/type/length")) }
{}

/// A member of a composite.
pub fn misses_a_members_attribute()
    ensures { schema_of deep_member_file ≡ Err (refusal Missing (codes "/messageSchema/content/0/types/content/0/composite/content/0/type/primitiveType")) }
{}

/// An element that isn't allowed in a group: the path ends at its position.
pub fn misplaces_a_ref()
    ensures { schema_of deep_part_file ≡ Err (refusal Shape (codes "/messageSchema/content/0/message/content/0/group/content/0")) }
{}

/// An id as text, and the defaults of everything else.
pub fn takes_the_defaults()
    ensures { schema_of defaults_file ≡ Ok defaults_schema }
{}

/// A message with one field.
pub fn holds_a_message()
    ensures { schema_of ping_file ≡ Ok ping_schema }
{}
