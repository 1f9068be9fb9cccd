//! Laws of the definitions, stated as functions without a body: what is taken piece by piece is the cut of the stream,
//! or its lines.

ghost use Rattle.std.specs.Prelude.{◌≡◌, ◌∷◌, ◌++◌, ◌+◌, [], ℕ, Ok, List, length};
ghost use Rattle.std.specs.List.{AllByRecursion};
ghost use Rattle.open_framing.specs.Pieces.{concat_pieces};
ghost use Rattle.open_framing.specs.Frames.{Cut, CutEnd, IsFrame, Item, frame_of};
ghost use Rattle.open_framing.specs.Lines as lines;
ghost use Rattle.frame_stream.specs.declared.held.Ended.{Ended};
ghost use Rattle.frame_stream.specs.declared.lines.LineEnded.{LineEnded};
ghost use Rattle.frame_stream.specs.Stream.{StreamState, TakesBy, TakesItems, cut_end, room, end_answer};
ghost use Rattle.frame_stream.specs.LineTakes.{LineState, TakesLast, TakesLineBy, TakesLines, line_room, line_end_answer, lines_end};

/// With frames in front of it, a stream has these as further items, and the rest is cut as before.
pub fn frames_go_on()
    ensures { (items more : List Item) (stream : List ℕ) (limit input : ℕ) (end : CutEnd)
        → AllByRecursion (IsFrame limit) items → Cut stream limit input more end
        → Cut (concat_pieces frame_of items ++ stream) limit (length (concat_pieces frame_of items) + input) (items ++ more) end }
{}

/// The items that are taken, and the end after them, are the cut of the stream.
pub fn takes_are_the_cut()
    ensures { (items : List Item) (stream left left' : List ℕ) (old next new : StreamState) (end : Ended)
        → TakesItems items stream old next left → TakesBy left next new left' (end_answer end)
        → Cut stream old.frame (room old) items (cut_end end) }
{}

/// With lines and their ends in front of it, a stream has these as further lines, and the rest is cut as before.
pub fn all_lines_go_on()
    ensures { (some more : List (List ℕ)) (stream : List ℕ) (input : ℕ) (end : lines.LineEnd)
        → AllByRecursion lines.IsLine some → lines.Lines stream input more end
        → lines.Lines (concat_pieces lines.ended some ++ stream) (length (concat_pieces lines.ended some) + input) (some ++ more) end }
{}

/// The lines that are taken, and the end after them, are the lines of the stream.
pub fn takes_are_the_lines()
    ensures end { (some : List (List ℕ)) (stream left left' : List ℕ) (old next new : LineState) (end : LineEnded)
        → TakesLines some stream old next left → TakesLineBy left next new left' (line_end_answer end)
        → lines.Lines stream (line_room old) some (lines_end end) }
    ensures last { (some : List (List ℕ)) (stream left left' : List ℕ) (old next new : LineState)
        → TakesLines some stream old next left → TakesLast left next new left'
        → lines.Lines stream (line_room old) (some ++ new.line ∷ []) lines.End }
{}
