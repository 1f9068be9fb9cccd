//! Rows: pairs of schemas, bodies and messages, and the results of the definitions for them.

ghost use Rattle.std.specs.Prelude.{◌≡◌, Option, Some, None, Ok, Err, List, [], ◌∷◌, codes};
ghost use Rattle.sbe_types.specs.declared.kind.Order.TheVariants.{Little, Big};
ghost use Rattle.sbe_types.specs.declared.kind.Presence.TheVariants.{Required};
ghost use Rattle.sbe_types.specs.declared.schema.Level.{Level', end_of-Group};
ghost use Rattle.sbe_wire.specs.Reading.{message_of};
ghost use Rattle.sbe_wire.specs.Rows.Schemas.{schema7, ping, nul, one, event0, event2, one_data, header_members, size16, field, uint8, uint16, int32};
ghost use Rattle.version_laws.specs.declared.difference.Reason.TheVariants as reason;
ghost use Rattle.version_laws.specs.declared.difference.Compat.TheVariants as answer;
ghost use Rattle.version_laws.specs.Answer.{compat};
ghost use Rattle.version_laws.specs.Differ.{differ, differs};
ghost use Rattle.version_laws.specs.Forward.{first_added};
ghost use Rattle.version_laws.specs.Plain.{Plain};
ghost use Rattle.version_laws.specs.Projected.{projected, lifted};
ghost use Rattle.version_laws.specs.Rows.{ping_wide, one_data1, ne0, ne1, event_raw_body, event_raw_message, event_full_message, ne_body, ne_old_body, ne_full_message, ne_misread_message, ne_projected_message, ne_old_message, ne_lifted_message, event_early_body, event_early_message, event_early_fault};
ghost use Rattle.version_laws.specs.Rows.{of_form, with_messages, padded_header, small, small_ping, decimal, letters, letter, grp_of, nest_of, group_alone, group_last};

/// At version 2 an enum lists one more value, and a field and data are added.
pub fn event_is_extended()
    ensures { differ event0 event2 ≡ None }
{}

/// Version 0 doesn't extend version 2.
pub fn event_is_older()
    ensures { differ event2 event0 ≡ differs [] reason.Version }
{}

/// A field has become wider.
pub fn ping_is_wider()
    ensures { differ schema7 ping_wide ≡ differs (codes "Ping.a") reason.Kind }
{}

/// A group that is added before data stops an older reader.
pub fn group_is_in_front()
    ensures { first_added one_data one_data1 ≡ Some (codes "Ow" ∷ codes "g" ∷ []) }
{}

/// So does data that is added to entries.
pub fn entry_gains_data()
    ensures { first_added ne0 ne1 ≡ Some (codes "Ne" ∷ codes "g" ∷ codes "t" ∷ []) }
{}

/// A field, and data after all others, don't.
pub fn event_goes_both_ways()
    ensures { first_added event0 event2 ≡ None }
{}

/// Version 2 reads a value and parts that version 0 lacks.
pub fn event_is_read()
    ensures { message_of event2 event_raw_body ≡ Ok event_full_message }
{}

/// Version 0 reads the value as its number, and skips the parts.
pub fn event_is_read_raw()
    ensures { message_of event0 event_raw_body ≡ Ok event_raw_message }
{}

/// That is what version 0 knows of the message.
pub fn event_is_projected()
    ensures { projected event0 event2 event_full_message ≡ Some event_raw_message }
{}

/// The newer version reads entries with data.
pub fn entries_are_read()
    ensures { message_of ne1 ne_body ≡ Ok ne_full_message }
{}

/// The older one mistakes the first entry's data for the second entry.
pub fn entries_are_misread()
    ensures { message_of ne0 ne_body ≡ Ok ne_misread_message }
{}

/// What the older version knows of the entries.
pub fn entries_are_projected()
    ensures { projected ne0 ne1 ne_full_message ≡ Some ne_projected_message }
{}

/// Entries that an older writer sent have no data.
pub fn older_entries_are_lifted()
    ensures { lifted ne0 ne1 ne_old_message ≡ Some ne_lifted_message }
{}

/// So the newer version reads them.
pub fn older_entries_are_read()
    ensures { message_of ne1 ne_old_body ≡ Ok ne_lifted_message }
{}

/// The message with data in its entries isn't plain.
pub fn entries_are_not_plain()
    ensures { Plain ne0 ne1 ne_full_message → ⊥ }
{}

/// A message that claims to be of version 0, with a value that only version 2 lists, is read by version 2.
pub fn early_value_is_read()
    ensures { message_of event2 event_early_body ≡ Ok event_early_message }
{}

/// Version 0 refuses it: it accepts values that it doesn't list only in messages of a later version.
pub fn early_value_is_refused()
    ensures { message_of event0 event_early_body ≡ Err event_early_fault }
{}

/// Each of the possible answers.
pub fn answer_rows()
    ensures two_way { compat event0 event2 ≡ answer.TwoWay }
    ensures one_way { compat ne0 ne1 ≡ answer.OneWay (codes "Ne.g.t") }
    ensures no { compat schema7 ping_wide ≡ answer.No (codes "Ping.a") reason.Kind }
    ensures not_earlier { compat event2 event0 ≡ answer.No [] reason.Version }
{}

/// Differences of the schemas themselves, whose path is empty.
pub fn schema_rows()
    ensures id { differ
        (with_messages 0 [])
        (of_form 8 0 Big header_members [])
        ≡ differs [] reason.Id }
    ensures byte_order { differ
        (with_messages 0 [])
        (of_form 7 0 Big padded_header [])
        ≡ differs [] reason.ByteOrder }
    ensures header { differ
        (with_messages 1 [])
        (of_form 7 0 Little padded_header [])
        ≡ differs [] reason.Header }
    ensures version { differ
        (with_messages 1 (ping ∷ []))
        (with_messages 0 [])
        ≡ differs [] reason.Version }
{}

/// Each message of the older version has its id and name in the newer one, in any order.
pub fn message_rows()
    ensures missing { differ
        (with_messages 0 (ping ∷ nul ∷ []))
        (with_messages 0 (ping ∷ []))
        ≡ differs (codes "Nul") reason.Message }
    ensures renamed { differ
        (with_messages 0 (Level' (codes "Pong") 1 [] 0 6 [] [] end_of-Group [] ∷ []))
        (with_messages 0 (ping ∷ []))
        ≡ differs (codes "Pong") reason.Message }
    ensures turned { differ
        (with_messages 0 (ping ∷ nul ∷ []))
        (with_messages 1 (one ∷ nul ∷ ping ∷ []))
        ≡ None }
    ensures first { differ
        (with_messages 0 (nul ∷ ping ∷ []))
        (with_messages 0 [])
        ≡ differs (codes "Nul") reason.Message }
{}

/// Differences of fields. The path of a missing part is the older version's.
pub fn field_rows()
    ensures missing { differ
        (small_ping 0 (small (codes "a") 0 None ∷ small (codes "b") 0 None ∷ []))
        (small_ping 0 (small (codes "a") 0 None ∷ []))
        ≡ differs (codes "Ping.b") reason.Part }
    ensures renamed { differ
        (small_ping 0 (small (codes "a") 0 None ∷ []))
        (small_ping 0 (small (codes "c") 0 None ∷ []))
        ≡ differs (codes "Ping.a") reason.Part }
    ensures one_more { differ
        (small_ping 0 [])
        (small_ping 0 (small (codes "c") 0 None ∷ []))
        ≡ differs (codes "Ping.c") reason.Part }
    ensures since { differ
        (small_ping 1 (small (codes "b") 1 None ∷ []))
        (small_ping 1 (small (codes "b") 0 None ∷ []))
        ≡ differs (codes "Ping.b") reason.Since }
    ensures place { differ
        (small_ping 0 (small (codes "b") 0 None ∷ []))
        (small_ping 0 (small (codes "b") 0 (Some 3) ∷ []))
        ≡ differs (codes "Ping.b") reason.Place }
    ensures in_padding { differ
        (small_ping 0 (small (codes "a") 0 None ∷ small (codes "b") 0 (Some 4) ∷ []))
        (small_ping 1 (small (codes "a") 0 None ∷ small (codes "c") 1 None ∷ small (codes "b") 0 (Some 4) ∷ []))
        ≡ None }
    ensures member_moved { differ
        (small_ping 0 (field (codes "px") 2 0 (decimal (int32 Required)) ∷ []))
        (small_ping 0 (field (codes "px") 2 0 (decimal uint16) ∷ []))
        ≡ differs (codes "Ping.px") reason.Place }
{}

/// The values that an enum lists: the same at one version, and those plus more at a later one.
pub fn list_rows()
    ensures gained { differ
        (small_ping 0 (field (codes "e") 2 0 (letters (letter (codes "A") 65 ∷ [])) ∷ []))
        (small_ping 0 (field (codes "e") 2 0 (letters (letter (codes "A") 65 ∷ letter (codes "B") 66 ∷ [])) ∷ []))
        ≡ differs (codes "Ping.e") reason.Kind }
    ensures gained_later { differ
        (small_ping 0 (field (codes "e") 2 0 (letters (letter (codes "A") 65 ∷ [])) ∷ []))
        (small_ping 1 (field (codes "e") 2 0 (letters (letter (codes "B") 66 ∷ letter (codes "A") 65 ∷ [])) ∷ []))
        ≡ None }
    ensures lost { differ
        (small_ping 0 (field (codes "e") 2 0 (letters (letter (codes "A") 65 ∷ letter (codes "B") 66 ∷ [])) ∷ []))
        (small_ping 1 (field (codes "e") 2 0 (letters (letter (codes "A") 65 ∷ [])) ∷ []))
        ≡ differs (codes "Ping.e") reason.Kind }
    ensures renumbered { differ
        (small_ping 0 (field (codes "e") 2 0 (letters (letter (codes "A") 65 ∷ [])) ∷ []))
        (small_ping 1 (field (codes "e") 2 0 (letters (letter (codes "A") 66 ∷ [])) ∷ []))
        ≡ differs (codes "Ping.e") reason.Kind }
{}

/// Differences of groups and of their contents.
pub fn group_rows()
    ensures renamed { differ
        (with_messages 0 (grp_of size16 (codes "g") ∷ []))
        (with_messages 0 (grp_of size16 (codes "h") ∷ []))
        ≡ differs (codes "Grp.g") reason.Part }
    ensures dimension { differ
        (with_messages 0 (grp_of size16 (codes "g") ∷ []))
        (with_messages 0 (grp_of padded_header (codes "g") ∷ []))
        ≡ differs (codes "Grp.g") reason.Kind }
    ensures nested { differ
        (with_messages 0 (nest_of uint8 uint16 ∷ []))
        (with_messages 0 (nest_of uint16 uint8 ∷ []))
        ≡ differs (codes "Nest.legs.subs.s") reason.Kind }
    ensures data_of_entries { differ
        (with_messages 0 (nest_of uint8 uint16 ∷ []))
        (with_messages 0 (nest_of uint8 uint8 ∷ []))
        ≡ differs (codes "Nest.legs.note") reason.Kind }
    ensures added { differ
        (with_messages 0 (group_alone ∷ []))
        (with_messages 1 (group_last ∷ []))
        ≡ None }
    ensures added_last { first_added
        (with_messages 0 (group_alone ∷ []))
        (with_messages 1 (group_last ∷ []))
        ≡ None }
{}
