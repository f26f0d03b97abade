//! Laws of a trace. Nothing is done.
ghost use Rattle.std.specs.Prelude.{◌≡◌, ℕ, ◌+◌, Bool, List, [], is_some, map};
ghost use Rattle.toml.specs.Data.{Members};
ghost use Rattle.cap_core.specs.declared.profile.ProfileName.{ProfileName};
ghost use Rattle.kernel_abstract.specs.declared.call.Call.{Call};
ghost use Rattle.kernel_abstract.specs.declared.call.Reply.{Reply};
ghost use Rattle.kernel_abstract.specs.State.{State};
ghost use Rattle.kernel_abstract.specs.Step.{replies_of, step};
ghost use Rattle.setup_format.specs.Views.{CallView};
ghost use Rattle.setup_report.specs.Naming.{Texts};
ghost use Rattle.setup_report.specs.Report.{call_lines, expectation_line, met_count, expectation_count};
ghost use Rattle.command_why.specs.Why.{is_refused};
ghost use Rattle.command_trace.specs.Trace.{traced_calls_lines, count_line, why_at};
ghost use Rattle.command_trace.specs.Laws.{details, followed, report_lines};

/// The lines of calls are those of the report, each followed by details of its own; and the last line is the report's.
pub fn calls_are_those_of_the_report()
    ensures report { (texts : Texts) (number : ℕ) (calls : List CallView) (replies : List Reply)
        → call_lines texts number calls replies ≡ followed (report_lines texts number calls replies) [] }
    ensures trace { (ways : Bool) (texts : Texts) (p : ProfileName) (table : Members) (i : ℕ) (A : State) (calls : List CallView)
        → traced_calls_lines ways texts p table i A calls
        ≡ followed (report_lines texts (i + 1) calls (replies_of p A (map (λ c. c.call) calls))) (details ways texts p table i A calls) }
    ensures last { (calls : List CallView) (replies : List Reply)
        → count_line (met_count calls replies) (expectation_count calls replies) ≡ expectation_line calls replies }
{}

/// Below a call stands a reason exactly where the call is refused.
pub fn reasons_stand_below_refused_calls()
    ensures { (texts : Texts) (p : ProfileName) (table : Members) (i : ℕ) (A : State) (call : Call)
        → is_some (why_at texts p table i A call) ≡ is_refused (step p A call).reply }
{}
