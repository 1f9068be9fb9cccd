//! Laws of the definitions, stated as functions without a body: a stream is cut in exactly one way, the readers find
//! that cut, and the rows compute it on small streams.

ghost use Rattle.std.specs.Prelude.{◌≡◌, ◌∷◌, ◌++◌, [], ◌+◌, ◌≢◌, ℕ, List, length, codes};
ghost use Rattle.std.specs.List.{AllByRecursion};
ghost use Rattle.open_framing.specs.declared.head.TheConstants.{HEAD_BYTES, SBE_BIG, SBE_LITTLE, TAG_VALUE};
ghost use Rattle.open_framing.specs.declared.line.TheConstants.{LINE_END, LONGEST_LINE};
ghost use Rattle.open_framing.specs.declared.head.HeadErr.TheVariants.{LengthShort, LengthOver, Encoding};
ghost use Rattle.open_framing.specs.Heads.{IsBytes};
ghost use Rattle.open_framing.specs.Frames.{frame, frame_of, IsFrame, Item, Cut, CutEnd, cut_of, End, EndInside, HeadFault, InputLimit};
ghost use Rattle.open_framing.specs.Lines as lines;
ghost use Rattle.open_framing.specs.Rows.{ping, ping_item, ping_frame, ping_begun, pings, short_head, long_head, strange_head};

/// A stream is cut into frames in exactly one way.
pub fn cut_once()
    ensures { (stream : List ℕ) (limit input : ℕ) (xs ys : List Item) (a b : CutEnd)
        → Cut stream limit input xs a → Cut stream limit input ys b → (xs ≡ ys) × (a ≡ b) }
{}

/// The reader gives the cut of any bytes.
pub fn cut_found()
    ensures { (stream : List ℕ) (limit input : ℕ) → IsBytes stream
        → let cut = cut_of stream limit input in Cut stream limit input cut.0 cut.1 }
{}

/// With a frame in front of it, a stream has one more item, and the rest is cut as before.
pub fn cut_goes_on()
    ensures { (stream : List ℕ) (limit input : ℕ) (item : Item) (items : List Item) (end : CutEnd)
        → IsFrame limit item → Cut stream limit input items end
        → Cut (frame_of item ++ stream) limit (length (frame_of item) + input) (item ∷ items) end }
{}

/// A stream is cut into lines in exactly one way.
pub fn lines_once()
    ensures { (stream : List ℕ) (input : ℕ) (xs ys : List (List ℕ)) (a b : lines.LineEnd)
        → lines.Lines stream input xs a → lines.Lines stream input ys b → (xs ≡ ys) × (a ≡ b) }
{}

/// The reader gives the lines of any stream.
pub fn lines_found()
    ensures { (stream : List ℕ) (input : ℕ)
        → let cut = lines.lines_of stream input in lines.Lines stream input cut.0 cut.1 }
{}

/// With a line in front of it, a stream has one more line, and the rest is cut as before.
pub fn lines_go_on()
    ensures { (stream : List ℕ) (input : ℕ) (line : List ℕ) (more : List (List ℕ)) (end : lines.LineEnd)
        → lines.IsLine line → lines.Lines stream input more end
        → lines.Lines (lines.ended line ++ stream) (length (lines.ended line) + input) (line ∷ more) end }
{}

/// One byte more than the longest line may have, without a line end among them, is too long for a line, whatever
/// follows.
pub fn line_over()
    ensures { (plain stream : List ℕ) (input : ℕ)
        → AllByRecursion (λ b. b ≢ lines.line_end) plain → length plain ≡ lines.longest_line + 1
        → lines.Lines (plain ++ stream) (length plain + input) [] lines.LineOver }
{}

/// A frame is its length, its encoding type and its body.
pub fn frame_row()
    ensures { frame SBE_LITTLE ping ≡ ping_frame }
{}

/// Whole frames, followed by nothing or by a part of another one.
pub fn cut_rows()
    ensures one { cut_of ping_frame 65_536 16_777_216 ≡ (ping_item ∷ [], End) }
    ensures none { cut_of ping_begun 65_536 16_777_216 ≡ ([], EndInside 19) }
    ensures two { cut_of pings 65_536 16_777_216 ≡ (ping_item ∷ ping_item ∷ [], EndInside 3) }
    ensures limit { cut_of ping_frame 65_536 10 ≡ ([], InputLimit) }
{}

/// Faulty heads.
pub fn fault_rows()
    ensures short { cut_of short_head 65_536 16_777_216 ≡ ([], HeadFault (LengthShort 5)) }
    ensures long { cut_of long_head 65_536 16_777_216 ≡ ([], HeadFault (LengthOver 65_537)) }
    ensures strange { cut_of strange_head 65_536 16_777_216 ≡ ([], HeadFault (Encoding 62_720)) }
{}

/// Three lines; the last one has no line end.
pub fn line_row()
    ensures { lines.lines_of (codes "ab" ++ lines.line_end ∷ lines.line_end ∷ codes "cd") 16_777_216 ≡ (codes "ab" ∷ [] ∷ codes "cd" ∷ [], lines.End) }
{}

/// The sizes of heads and lines, and the encoding types.
pub fn numbers()
    ensures head { HEAD_BYTES ≡ 6 }
    ensures big { SBE_BIG ≡ 0x5be0 }
    ensures little { SBE_LITTLE ≡ 0xeb50 }
    ensures tag_value { TAG_VALUE ≡ 0xf000 }
    ensures line { LONGEST_LINE ≡ 1_048_576 }
    ensures end { LINE_END ≡ 0x0a }
{}
