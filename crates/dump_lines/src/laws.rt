//! Laws of the answers.

ghost use Rattle.dump_lines.specs.Dumped.{FaultsHaveWays, IsAnswered, IsAnsweredOnce};

/// Each frame has exactly one answer.
pub fn each_frame_has_one_answer()
    ensures some { IsAnswered }
    ensures once { IsAnsweredOnce }
{}

/// The path of a body's first fault leads to a part of the message that its header names.
pub fn faults_have_ways()
    ensures { FaultsHaveWays }
{}
