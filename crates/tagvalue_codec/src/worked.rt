//! The definitions, computed on small texts. Each row is the contract of a function without a body; no code runs here.
ghost use Rattle.std.specs.Prelude.{◌≡◌, ℕ, List, [], ◌∷◌, codes, Ok, Err};
ghost use Rattle.tagvalue_codec.specs.declared.read.TCode.TheVariants as code;
ghost use Rattle.tagvalue_codec.specs.Drafts.{field_of};
ghost use Rattle.tagvalue_codec.specs.Reading.{text_read, fault_at};

/// No bytes: T01.
pub fn is_empty()
    ensures { text_read [] [] ≡ Err (fault_at code.FirstTag 0) }
{}

/// A BodyLength that isn't a number: T02.
pub fn has_no_number()
    ensures { text_read [] (codes "8=FIX.4.4\u{1}9=x\u{1}35=0\u{1}10=163\u{1}") ≡ Err (fault_at code.BodyLength 10) }
{}

/// A text without its last SOH: T03, and the number would be 4.
pub fn lacks_its_end()
    ensures { text_read [] (codes "8=FIX.4.4\u{1}9=5\u{1}35=0\u{1}10=163") ≡ Err (record { code = code.LengthWrong; offset = 10; detail = 4 }) }
{}

/// A body that begins with another field: T04.
pub fn lacks_its_type()
    ensures { text_read [] (codes "8=FIX.4.4\u{1}9=5\u{1}49=A\u{1}10=000\u{1}") ≡ Err (fault_at code.MsgType 14) }
{}

/// BeginString again in the body: T06.
pub fn begins_twice()
    ensures { text_read [] (codes "8=FIX.4.4\u{1}9=9\u{1}35=0\u{1}8=A\u{1}10=000\u{1}") ≡ Err (fault_at code.Field 19) }
{}

/// A wrong sum: T05, and it would be 163.
pub fn has_a_wrong_sum()
    ensures { text_read [] (codes "8=FIX.4.4\u{1}9=5\u{1}35=0\u{1}10=164\u{1}") ≡ Err (record { code = code.CheckSum; offset = 19; detail = 163 }) }
{}

/// A good text.
pub fn is_a_heartbeat()
    ensures { text_read [] (codes "8=FIX.4.4\u{1}9=5\u{1}35=0\u{1}10=163\u{1}") ≡ Ok (field_of 8 (codes "FIX.4.4") ∷ field_of 9 (codes "5") ∷ field_of 35 (codes "0") ∷ field_of 10 (codes "163") ∷ []) }
{}

/// SOH in a data value.
pub fn has_data()
    ensures { text_read (record { length_tag = 95; tag = 96 } ∷ []) (codes "8=FIX.4.4\u{1}9=18\u{1}35=U1\u{1}95=3\u{1}96=a\u{1}b\u{1}10=125\u{1}")
        ≡ Ok (field_of 8 (codes "FIX.4.4") ∷ field_of 9 (codes "18") ∷ field_of 35 (codes "U1") ∷ field_of 95 (codes "3") ∷ field_of 96 (codes "a\u{1}b") ∷ field_of 10 (codes "125") ∷ []) }
{}

/// A length that ends inside the data: T07 at the data field.
pub fn has_short_data()
    ensures { text_read (record { length_tag = 95; tag = 96 } ∷ []) (codes "8=FIX.4.4\u{1}9=18\u{1}35=U1\u{1}95=2\u{1}96=a\u{1}b\u{1}10=124\u{1}") ≡ Err (fault_at code.DataLength 26) }
{}
