//! A law of the text of reasons, over the definitions alone. Nothing is done.
ghost use Rattle.std.specs.Prelude.{Bool};
ghost use Rattle.cap_core.specs.declared.profile.ProfileName.{ProfileName};
ghost use Rattle.kernel_abstract.specs.Plan.{Plan};
ghost use Rattle.kernel_abstract.specs.Shown.{Shown};
ghost use Rattle.kernel_abstract.specs.declared.reason.Reason.{Reason};
ghost use Rattle.setup_values.specs.Names.{Names};
ghost use Rattle.setup_report.specs.Naming.{Texts, report_texts};
ghost use Rattle.command_why.specs.Asked.{AskedView};
ghost use Rattle.command_why.specs.Reasons.{reason_lines};
ghost use Rattle.command_why.specs.Laws.{AreNamesOfOneLine, AreOneLineTexts, HasLines};

/// The text of each reason has one to four lines, each after two spaces. No line feed stands in one of them, if none
/// stands in a name by which the call's table spells a value, nor in what is said about an object or a slot. And there none
/// stands by addresses, and by names if no name of the set-up has one.
pub fn reasons_have_one_to_four_lines()
    ensures lines { (texts : Texts) (p : ProfileName) (v : Shown) (a : AskedView) (reason : Reason)
        → HasLines texts a 1 4 (reason_lines texts p v a reason) }
    ensures told { (by_name : Bool) (p : ProfileName) (names : Names) (plan : Plan) (v : Shown)
        → AreNamesOfOneLine names → AreOneLineTexts (report_texts by_name p names plan v) }
{}
