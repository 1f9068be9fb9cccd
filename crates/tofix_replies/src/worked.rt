//! The definitions, computed on small replies. Each row is the contract of a function without a body; no code runs
//! here.

ghost use Rattle.std.specs.Prelude.{◌≡◌, ◌∷◌, ◌++◌, [], codes, None, Some};
ghost use Rattle.fix_values.specs.declared.rule.V.TheVariants as why;
ghost use Rattle.refused_items.specs.Refused.{refused_line};
ghost use Rattle.bridge_terms.specs.Places.{no_delimiter, no_text};
ghost use Rattle.replies.specs.declared.verdict.Verdict.TheVariants.{Translated};
ghost use Rattle.tofix_replies.specs.ToFix.{head_after, sent, text_limit};
ghost use Rattle.tofix_replies.specs.Unsent.{of_full, of_no_message, of_uncovered, of_why};

/// A value without a code, an entry without its delimiter, and a frame that is too long.
pub fn unwritten_places_are_noted()
    ensures value { refused_line 0 (of_why (no_text why.UnknownCode) (codes "Side")) ≡ codes "{\"refused\":\"B03\",\"item\":0,\"offset\":null,\"path\":\"Side\",\"detail\":\"V6\"}\n" }
    ensures entry { refused_line 2 (of_why no_delimiter (codes "legs[1]")) ≡ codes "{\"refused\":\"B06\",\"item\":2,\"offset\":null,\"path\":\"legs[1]\",\"detail\":\"\"}\n" }
    ensures room { refused_line 1 (of_full 59) ≡ codes "{\"refused\":\"N08\",\"item\":1,\"offset\":null,\"path\":\"\",\"detail\":\"65\"}\n" }
{}

/// Templates for which the mapping has no message, or which it doesn't cover.
pub fn uncovered_templates_are_noted()
    ensures message { refused_line 0 of_no_message ≡ codes "{\"refused\":\"B01\",\"item\":0,\"offset\":null,\"path\":\"\",\"detail\":\"\"}\n" }
    ensures part { refused_line 3 (of_uncovered (codes "legs" ∷ codes "px" ∷ [])) ≡ codes "{\"refused\":\"B02\",\"item\":3,\"offset\":null,\"path\":\"legs.px\",\"detail\":\"\"}\n" }
{}

/// The frame of a text of 38 bytes: its length counts its own head of six bytes.
pub fn texts_are_framed()
    ensures frame { (sent (codes "8=FIX.4.4\u{1}9=16\u{1}35=U3\u{1}44=123.45\u{1}10=000\u{1}")).output
        ≡ (0 ∷ 0 ∷ 0 ∷ 44 ∷ 240 ∷ 0 ∷ []) ++ codes "8=FIX.4.4\u{1}9=16\u{1}35=U3\u{1}44=123.45\u{1}10=000\u{1}" }
    ensures verdict { (sent (codes "8=FIX.4.4\u{1}")).verdict ≡ Translated }
    ensures limit { text_limit 65536 ≡ 65530 }
{}

/// Sequence numbers increase by one with each text, and there are none if none was asked for.
pub fn texts_are_numbered()
    ensures given { (head_after 2 (record { begin = codes "FIX.4.4"; sender = None; target = None; seq = Some 7; time = None })).seq ≡ Some 9 }
    ensures last { (head_after 2 (record { begin = codes "FIX.4.4"; sender = None; target = None; seq = Some 18446744073709551614; time = None })).seq ≡ Some 18446744073709551615 }
    ensures none { (head_after 2 (record { begin = codes "FIX.4.4"; sender = None; target = None; seq = None; time = None })).seq ≡ None }
{}
