//! The definitions, computed on small texts. Each row is the contract of a function without a body; no code runs here.

ghost use Rattle.std.specs.Prelude.{◌≡◌, ◌∷◌, [], codes, None, Some};
ghost use Rattle.tagvalue_codec.specs.Drafts.{field_of};
ghost use Rattle.bridge_terms.specs.Places.{over_limit, unwritten, no_delimiter, to_part, to_entry};
ghost use Rattle.fix_messages.specs.Heads.{field_places, no_lists};
ghost use Rattle.fix_messages.specs.Rows.{bare, full, long_text, raw};
ghost use Rattle.fix_messages.specs.Texts.{message_text, text_refusal};

/// A head without options, and one field.
pub fn has_one_field()
    ensures { message_text no_lists (codes "U3") bare (field_of 44 (codes "123.45") ∷ [])
        ≡ codes "8=FIX.4.4\u{1}9=16\u{1}35=U3\u{1}44=123.45\u{1}10=000\u{1}" }
{}

/// The options of a head, in the order of the header, before the fields of an order with a group.
pub fn has_a_whole_head()
    ensures { message_text no_lists (codes "D") full (field_of 11 (codes "ORD00001") ∷ field_of 453 (codes "1") ∷ field_of 448 (codes "FIRM")
        ∷ field_of 452 (codes "1") ∷ field_of 55 (codes "GEM4") ∷ field_of 54 (codes "1") ∷ field_of 38 (codes "7") ∷ field_of 40 (codes "2")
        ∷ field_of 44 (codes "99.5") ∷ [])
        ≡ codes "8=FIX.4.4\u{1}9=90\u{1}35=D\u{1}49=FIRM\u{1}56=EXCH\u{1}34=1\u{1}11=ORD00001\u{1}453=1\u{1}448=FIRM\u{1}452=1\u{1}55=GEM4\u{1}54=1\u{1}38=7\u{1}40=2\u{1}44=99.5\u{1}10=190\u{1}" }
{}

/// A data field that contains SOH, after its length field.
pub fn has_a_length_field()
    ensures { message_text raw (codes "U1") bare (field_of 96 (codes "a\u{1}b") ∷ [])
        ≡ codes "8=FIX.4.4\u{1}9=18\u{1}35=U1\u{1}95=3\u{1}96=a\u{1}b\u{1}10=125\u{1}" }
{}

/// A text of 38 bytes, which meets its limit exactly and exceeds it by one; and one whose head alone exceeds it, by its
/// type and then by its sequence number.
pub fn keeps_to_the_limit()
    ensures met { text_refusal no_lists 38 (codes "U3") bare (field_places (field_of 44 (codes "123.45") ∷ [])) ≡ None }
    ensures passed { text_refusal no_lists 37 (codes "U3") bare (field_places (field_of 44 (codes "123.45") ∷ [])) ≡ Some (over_limit (record { way = []; size = 38 })) }
    ensures typed { text_refusal no_lists 26 (codes "U3") bare (field_places []) ≡ Some (over_limit (record { way = []; size = 27 })) }
    ensures numbered { text_refusal no_lists 48 (codes "U3") full (field_places []) ≡ Some (over_limit (record { way = []; size = 49 })) }
{}

/// A place over the limit comes before a refusal at a later one.
pub fn tells_the_limit_first()
    ensures first { text_refusal no_lists 37 (codes "U3") bare
        (record { places = record { way = to_part 44 ∷ []; fields = field_of 44 (codes "123.45") ∷ [] } ∷ []; refused = Some (record { way = to_part 146 ∷ to_entry 0 ∷ []; why = no_delimiter }) })
        ≡ Some (over_limit (record { way = to_part 44 ∷ []; size = 38 })) }
    ensures later { text_refusal no_lists 38 (codes "U3") bare
        (record { places = record { way = to_part 44 ∷ []; fields = field_of 44 (codes "123.45") ∷ [] } ∷ []; refused = Some (record { way = to_part 146 ∷ to_entry 0 ∷ []; why = no_delimiter }) })
        ≡ Some (unwritten (record { way = to_part 146 ∷ to_entry 0 ∷ []; why = no_delimiter })) }
{}

/// A body of 99 bytes, and one of 100, whose number has one more digit.
pub fn counts_the_digits_of_a_length()
    ensures two { text_refusal no_lists 1000 (codes "U3") bare (field_places (field_of 58 (long_text 89) ∷ [])) ≡ None }
    ensures met { text_refusal no_lists 121 (codes "U3") bare (field_places (field_of 58 (long_text 89) ∷ [])) ≡ None }
    ensures three { text_refusal no_lists 122 (codes "U3") bare (field_places (field_of 58 (long_text 90) ∷ [])) ≡ Some (over_limit (record { way = []; size = 123 })) }
{}
