// Laws of courses. The functions do nothing: what they say is in their contracts.
ghost use Rattle.seq_course.specs.Done.{CoursesAreRight, EndsAreRight, StopsAreRight, FaultlessFinishesAreDone, CoursesCheckUncovered};

use seq_covered::checks_are_uncovered;

/// What the course of a faultless schedule releases is right, however it ends, also by a machine check: the history is a flat run
/// with what arrived in the events that were made, and the bytes sent on each line are a prefix of its output.
pub fn courses_are_right()
    ensures whole { CoursesAreRight }
    ensures ends { EndsAreRight }
    ensures stops { StopsAreRight }
{}

/// At the end of each `finish` behind which a faultless schedule goes on, no process can take a step with what has arrived, and each
/// line has released its whole output.
pub fn finishes_are_done()
    ensures { FaultlessFinishesAreDone }
{}

/// The course of a faultless schedule comes to a machine check only where its events, the check included, aren't covered.
pub fn courses_check_uncovered()
    ensures { CoursesCheckUncovered }
{
    checks_are_uncovered();
}
