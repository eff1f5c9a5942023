//! What is true of every trace and of every text of one. Each function does nothing, and its contract is the law.
ghost use Rattle.std.specs.Prelude.{◌≡◌, ℕ, List, All, map};
ghost use Rattle.ra_world.specs.Traffic.{Move};
ghost use Rattle.ra_trace.specs.declared.checker.verdict.Verdict.{Verdict};
ghost use Rattle.ra_trace.specs.declared.line.version.Version.{Version};
ghost use Rattle.ra_trace.specs.TraceText.{IsLine, IsTraceIn, trace_lines, trace_text};
ghost use Rattle.ra_trace.specs.Verdict.{IsVerdict};
ghost use Rattle.ra_trace.specs.declared.mark_log.marks_verdict.MarksVerdict.{MarksVerdict};
ghost use Rattle.ra_trace.specs.Marks.{IsMarksVerdict};

/// No text has two verdicts: it is the trace of a run, or one line is the first wrong one, for one cause.
pub fn each_text_has_one_verdict()
    ensures { (text : List ℕ) (a b : Verdict) → IsVerdict text a → IsVerdict text b → a ≡ b }
{}

/// No two lists of moves, with fields in the ranges of a version, have the same text, whether they are runs or not. The
/// text tells the version, the number of nodes, the number that each resource begins with, each step and its marks.
pub fn texts_tell_their_steps()
    ensures { (version second : Version) (n m start other : ℕ) (moves others : List Move)
        → All (IsLine version) (trace_lines version n start moves)
        → All (IsLine second) (trace_lines second m other others)
        → trace_text version n start moves ≡ trace_text second m other others
        → (version ≡ second) × (n ≡ m) × (start ≡ other)
        × (map (λ move. move.step) moves ≡ map (λ move. move.step) others)
        × (map (λ move. move.marks) moves ≡ map (λ move. move.marks) others) }
{}

/// No text is the trace of two runs, or of one run in two versions. It tells the version, the number of nodes, the
/// number that each resource begins with, each step, and what it sent and marked.
pub fn traces_tell_their_runs()
    ensures { (version second : Version) (n m start other : ℕ) (moves others : List Move) (text : List ℕ)
        → IsTraceIn version n start moves text → IsTraceIn second m other others text
        → (version ≡ second) × (n ≡ m) × (start ≡ other) × (moves ≡ others) }
{}

/// No text has two verdicts as a mark log: its marks are a run of the lock table, or one line is the first wrong one,
/// for one cause.
pub fn each_mark_log_has_one_verdict()
    ensures { (text : List ℕ) (a b : MarksVerdict) → IsMarksVerdict text a → IsMarksVerdict text b → a ≡ b }
{}
