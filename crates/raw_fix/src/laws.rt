//! Laws of the definitions, stated as functions without a body: a stream has one list of items, the readers find it,
//! the items taken one after another are that list, and what the list is for streams of texts.

ghost use Rattle.std.specs.Prelude.{◌≡◌, ◌≤◌, ◌∷◌, ◌++◌, ◌+◌, ℕ, List, true, None, Result, Err, [], length, take};
ghost use Rattle.std.specs.Prelude.{map, nat_lt, codes};
ghost use Rattle.std.specs.List.{AllByRecursion, flat_map};
ghost use Rattle.tagvalue_codec.specs.declared.data_tags.Pair.{Pair};
ghost use Rattle.tagvalue_codec.specs.Fields.{Field};
ghost use Rattle.tagvalue_codec.specs.Texts.{FixText};
ghost use Rattle.raw_fix.specs.declared.claim.Claim.{Claim};
ghost use Rattle.raw_fix.specs.Claims.{Claims, claim_of, IsWhole, IsNever};
ghost use Rattle.raw_fix.specs.declared.code.PCode.TheVariants as code;
ghost use Rattle.raw_fix.specs.declared.taken.RawEnded.{RawEnded};
ghost use Rattle.raw_fix.specs.declared.taken.RawTaken.{RawTaken};
ghost use Rattle.raw_fix.specs.declared.taken.RawErr.{RawErr};
ghost use Rattle.raw_fix.specs.declared.taken.RawErr.TheVariants as err;
ghost use Rattle.raw_fix.specs.Fields.{fix_texts};
ghost use Rattle.raw_fix.specs.Stream.{RawState, RawBetween, IsCounted, TakesBy, TakesItems, room, raw_end};
ghost use Rattle.raw_fix.specs.Taking.{end_answer};
ghost use Rattle.raw_fix.specs.Rows.{heartbeat, broken, only_heartbeat, garbled};
ghost use Rattle.raw_fix.specs.Raw.{Texts, Item, IsItem, RawEnd, End, InputLimit, Raw, raw_of, AreSized, IsText};
ghost use Rattle.raw_fix.specs.Raw.{IsGarbage, item_bytes, message, prefix, concat_texts};

/// Bytes make one claim.
pub fn claim_once()
    ensures { (most : ℕ) (bytes : List ℕ) (c d : Claim) → Claims most bytes c → Claims most bytes d → c ≡ d }
{}

/// The reader gives the claim of any bytes.
pub fn claim_found()
    ensures { (most : ℕ) (bytes : List ℕ) → Claims most bytes (claim_of most bytes) }
{}

/// Once a text begins, or none can begin, this stays so whatever follows.
pub fn claims_stay()
    ensures whole { (most : ℕ) (bytes more : List ℕ) (n : ℕ) → IsWhole most bytes n → IsWhole most (bytes ++ more) n }
    ensures never { (most : ℕ) (bytes more : List ℕ) → IsNever most bytes → IsNever most (bytes ++ more) }
{}

/// A stream has one list of items and one end.
pub fn raw_once()
    ensures { (texts : Texts) (stream : List ℕ) (input : ℕ) (xs ys : List Item) (a b : RawEnd)
        → Raw texts stream input xs a → Raw texts stream input ys b → (xs ≡ ys) × (a ≡ b) }
{}

/// The reader gives the items of any stream, and its end.
pub fn raw_found()
    ensures { (texts : Texts) (stream : List ℕ) (input : ℕ)
        → let raw = raw_of texts stream input in Raw texts stream input raw.0 raw.1 }
{}

/// With an item in front of it, a stream has one more item, followed by the items of the stream.
pub fn raw_goes_on()
    ensures { (texts : Texts) (stream : List ℕ) (input : ℕ) (item : Item) (items : List Item) (end : RawEnd)
        → IsItem texts (nat_lt input (length stream)) (item_bytes item ++ take input stream) item → Raw texts stream input items end
        → Raw texts (item_bytes item ++ stream) (length (item_bytes item) + input) (item ∷ items) end }
{}

/// If a stream ends and all of it was read, the items' bytes one after another are the stream.
pub fn raw_is_whole()
    ensures { (texts : Texts) (stream : List ℕ) (input : ℕ) (items : List Item)
        → Raw texts stream input items End → stream ≡ flat_map item_bytes items }
{}

/// A stream of texts gives exactly these as messages.
pub fn texts_are_messages()
    ensures { (texts : Texts) → AreSized texts → (input : ℕ) (xs : List (List ℕ))
        → AllByRecursion (IsText texts) xs → length (concat_texts xs) ≤ input
        → Raw texts (concat_texts xs) input (map message xs) End }
{}

/// Garbage in front of texts is one garbled item, and no text after it is lost.
pub fn garbage_is_passed()
    ensures { (texts : Texts) → AreSized texts → (input : ℕ) (front : List ℕ) (xs : List (List ℕ))
        → AllByRecursion (IsText texts) xs → length (front ++ concat_texts xs) ≤ input → IsGarbage front (concat_texts xs)
        → Raw texts (front ++ concat_texts xs) input (prefix front ∷ map message xs) End }
{}

/// The items that are taken, and the end after them, are those of the stream.
pub fn takes_are_the_items()
    ensures { (texts : Texts) (items : List Item) (old next new : RawState) (b : RawBetween) (left : List ℕ) (end : RawEnded)
        → old.run ≡ None → TakesItems texts items old next b
        → TakesBy texts next new (record { stream = b.left; left = left }) (end_answer end)
        → Raw texts b.stream (room old) items (raw_end end) }
{}

/// A take that was cut off by a read fault, and the next take, are together one take.
pub fn faults_change_nothing()
    ensures { (texts : Texts) (old mid new : RawState) (stream left later : List ℕ) (answer : Result RawTaken RawErr)
        → IsCounted old → IsCounted mid → mid.input ≡ old.input
        → TakesBy texts old mid (record { stream = stream; left = left }) (Err err.ReadFault)
        → TakesBy texts mid new (record { stream = mid.held ++ left; left = later }) answer
        → TakesBy texts old new (record { stream = stream; left = later }) answer }
{}

/// The texts that are searched for consist of fields, and each has as many bytes as it states.
pub fn texts_have_fields()
    ensures fields { (tags : List Pair) (most : ℕ) (text : List ℕ) → (fix_texts tags most).is_text text ≡ true
        → (fields : List Field) × FixText tags fields text }
    ensures text { (tags : List Pair) (most : ℕ) (text : List ℕ) (fields : List Field) → FixText tags fields text
        → (fix_texts tags most).is_text text ≡ true }
    ensures sized { (tags : List Pair) (most : ℕ) → AreSized (fix_texts tags most) }
{}

/// One text, and one whose last byte is missing.
pub fn text_rows()
    ensures whole { raw_of only_heartbeat heartbeat 16_777_216 ≡ (message heartbeat ∷ [], End) }
    ensures ends { raw_of only_heartbeat (take 25 heartbeat) 16_777_216 ≡ (garbled code.Ends (take 25 heartbeat) ∷ [], End) }
    ensures limit { raw_of only_heartbeat heartbeat 10 ≡ ([], InputLimit) }
{}

/// Garbage, a text with a wrong sum, and a valid one after them.
pub fn garbage_row()
    ensures { raw_of only_heartbeat (codes "xx" ++ broken ++ heartbeat) 16_777_216
        ≡ (garbled code.Prefix (codes "xx") ∷ garbled code.Text broken ∷ message heartbeat ∷ [], End) }
{}
