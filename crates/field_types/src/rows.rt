//! The definitions, computed on worked rows.

ghost use Rattle.std.specs.Prelude.{◌≡◌, ◌∷◌, [], codes, None, Some};
ghost use Rattle.bridge_rules.specs.Datatypes.{whole_number, decimal_number, text, calendar_day, raw, code_set, character_set, unbridged};
ghost use Rattle.field_types.specs.FieldTypes.{field_type};
ghost use Rattle.field_types.specs.Rows.{typed, one_code};

/// Datatypes of FIX, declared ones, and code sets that hide a datatype.
pub fn datatype_rows()
    ensures number { field_type [] (typed (codes "SeqNum") None) ≡ whole_number }
    ensures price { field_type [] (typed (codes "PriceOffset") None) ≡ decimal_number }
    ensures exchange { field_type [] (typed (codes "Exchange") None) ≡ text }
    ensures day { field_type [] (typed (codes "LocalMktDate") None) ≡ calendar_day }
    ensures bytes { field_type [] (typed (codes "data") (Some 95)) ≡ raw }
    ensures bare { field_type [] (typed (codes "data") None) ≡ unbridged }
    ensures zone { field_type [] (typed (codes "TZTimestamp") None) ≡ unbridged }
    ensures alone { field_type [] (typed (codes "MultipleCharValue") None) ≡ unbridged }
    ensures declared { field_type [] (typed (codes "Tenor") None) ≡ unbridged }
    ensures hidden { field_type (one_code (codes "int") (codes "String") ∷ []) (typed (codes "int") None)
        ≡ code_set (record { name = codes "Buy"; text = codes "1" } ∷ []) }
    ensures characters { field_type (one_code (codes "Side") (codes "MultipleCharValue") ∷ []) (typed (codes "Side") None)
        ≡ character_set (record { name = codes "Buy"; text = codes "1" } ∷ []) }
{}
