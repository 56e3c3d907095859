// Laws of the printed texts. The functions do nothing: what they say is in their contracts.
ghost use Rattle.seq_report.specs.Laws.{ReportsEndLines, SinglesEndLines, AssembledEndsLine, ReportsTellStatus};

/// Each text ends with the end of a line.
pub fn texts_end_lines()
    ensures reports { ReportsEndLines }
    ensures singles { SinglesEndLines }
    ensures assembled { AssembledEndsLine }
{}

/// A report tells the status of its run: those of two statuses differ, whatever else they tell.
pub fn reports_tell_status()
    ensures { ReportsTellStatus }
{}
