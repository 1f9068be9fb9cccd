//! The definitions of a run, computed on small runs.

ghost use Rattle.std.specs.Prelude.{◌≡◌, ◌∷◌, ◌++◌, [], ℕ, List, Option, Some, None, Ok, Err, codes};
ghost use Rattle.sbe_base.specs.declared.status.Limits.{Limits};
ghost use Rattle.sbe_base.specs.declared.status.Status.TheVariants as status;
ghost use Rattle.dump_lines.specs.Dumped.{AreInOrder};
ghost use Rattle.schema_files.specs.FileChecks.{alone, refused_as};
ghost use Rattle.sbe_types.specs.declared.schema.WireSchema.{WireSchema};
ghost use Rattle.schema_files.specs.declared.files.FileRefusal.{FileRefusal};
ghost use Rattle.schema_files.specs.declared.files.FileRole.TheVariants as role;
ghost use Rattle.sbe_wire.specs.Rows.Schemas.{schema7, event0, event2, one_data};
ghost use Rattle.version_laws.specs.Rows.{ping_wide, one_data1};
ghost use Rattle.command_steps.specs.Splits.{End, EndInside, LineOver, InputLimit, line_pieces};
ghost use Rattle.command_steps.specs.Replies.{Replies, none_kept};
ghost use Rattle.replies.specs.Reply.{none_written};
ghost use Rattle.command_steps.specs.Ends.{closed};
ghost use Rattle.sbe_cli.specs.Report.{Report, JobReport, only_noted};
ghost use Rattle.sbe_cli.specs.Jobs.{answering_of, Check, Compat, Dump, Build};
ghost use Rattle.compat_command.specs.Compat.{versions_check};
ghost use Rattle.dump_lines.specs.declared.schemas.Schemas.{Schemas};
ghost use Rattle.build_command.specs.Builds.{Building};
ghost use Rattle.sbe_cli.specs.Rows.{so_far, only_output, two_pieces, ping_line, six_lines, two_way, one_way, other_kind, refused_second, refused_xml};
ghost use Rattle.sbe_cli.specs.Rows.{usage, absent, absent_old, ends_inside, over_limit, over_line, three_lines};

/// Without arguments there is no command.
pub fn no_words()
    ensures { (contents : List ℕ → Option (List ℕ)) (input : List ℕ) → Report [] contents input (only_noted usage status.Usage) }
{}

/// No file has this name.
pub fn no_file()
    ensures { (input : List ℕ) → Report (codes "dump" ∷ codes "ping.json" ∷ []) (λ name. None) input (only_noted absent status.NoFile) }
{}

/// Two frames of 20 bytes. The second one isn't little-endian.
pub fn two_frames()
    ensures { (limits : Limits) → AreInOrder (alone schema7) → Replies (answering_of (Dump (alone schema7) limits)) none_kept two_pieces
        (record { output = ping_line ++ refused_second; notes = [] }) (so_far 2 1 40) }
{}

/// A check of a schema of six messages, whatever the input holds.
pub fn six_messages()
    ensures { (input : List ℕ) → JobReport (Check schema7) input (only_output six_lines status.Done) }
{}

/// An event's schema and a later version of it.
pub fn goes_both_ways()
    ensures { (input : List ℕ) → JobReport (Compat (record { older = event0; newer = event2 })) input (only_output two_way status.Done) }
{}

/// A group was added before data.
pub fn goes_one_way()
    ensures { (input : List ℕ) → JobReport (Compat (record { older = one_data; newer = one_data1 })) input (only_output one_way status.Done) }
{}

/// A field has another type: the pair is a refused item.
pub fn is_no_extension()
    ensures { (input : List ℕ) → JobReport (Compat (record { older = schema7; newer = ping_wide })) input (only_output other_kind status.SomeRefused) }
{}

/// Neither file of a comparison exists.
pub fn no_files()
    ensures { (input : List ℕ) → Report (codes "compat" ∷ codes "a.json" ∷ codes "b.json" ∷ []) (λ name. None) input
        (only_noted absent_old status.NoFile) }
{}

/// The older file is checked as a whole before the newer one.
pub fn first_refusal()
    ensures older { (why later : FileRefusal) → versions_check (Err why) (Err later) ≡ Err (refused_as role.Old why) }
    ensures newer { (schema : WireSchema) (why : FileRefusal) → versions_check (Ok schema) (Err why) ≡ Err (refused_as role.New why) }
{}

/// A schema in XML.
pub fn xml_schema()
    ensures { (input : List ℕ) → Report (codes "check" ∷ codes "ping.xml" ∷ []) (λ name. Some (codes "<")) input
        (only_noted refused_xml status.SchemaRefused) }
{}

/// The ends after one frame of 20 bytes that was answered.
pub fn ends()
    ensures end { (schemas : Schemas) (limits : Limits) → closed (answering_of (Dump schemas limits)) End none_written (so_far 1 0 20)
        ≡ only_noted [] status.Done }
    ensures refused { (schemas : Schemas) (limits : Limits) → closed (answering_of (Dump schemas limits)) End none_written (so_far 1 1 20)
        ≡ only_noted [] status.SomeRefused }
    ensures inside { (schemas : Schemas) (limits : Limits) → closed (answering_of (Dump schemas limits)) (EndInside 3) none_written (so_far 1 0 20)
        ≡ only_noted ends_inside status.FramingRefused }
    ensures limit { (schemas : Schemas) (frame : ℕ) →
        closed (answering_of (Dump schemas (record { frame = frame; input = 30 }))) InputLimit none_written (so_far 1 0 20)
        ≡ only_noted over_limit status.InputLimit }
{}

/// Lines of an input, and a line that is too long after five bytes.
pub fn lines_of_an_input()
    ensures pieces { line_pieces 4 (codes "a" ∷ [] ∷ codes "b" ∷ []) ≡ three_lines }
    ensures over { (building : Building) (limit : ℕ) → closed (answering_of (Build building limit)) LineOver none_written (so_far 1 0 5)
        ≡ only_noted over_line status.FramingRefused }
{}
