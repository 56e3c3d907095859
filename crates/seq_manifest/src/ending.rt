ghost use Rattle.std.specs.Prelude.{◌≡◌, ◌<◌, ◌&&◌, not, nat_lt, length};
ghost use Rattle.seq_manifest.specs.Drafts.{said_by, parts_of};
ghost use Rattle.seq_manifest.specs.Faults.{is_owned, some_below, has_gap, end_rule};
ghost use Rattle.seq_manifest.specs.Taking.{IsParts};

use crate::Draft;
use crate::parts::Parts;
use seq_words::MachineDesc;

// The rules at the end of the text.
const ENDS_EARLY: u16 = 11;

const GAP: u16 = 15;

impl Parts {
    fn owns_above(&self, below: u8, line: u8) -> bool
        requires there { line < 16 }
        requires parts { IsParts self.now }
        ensures { result ≡ (nat_lt below line && is_owned (said_by self.now) line) }
    {
        below < line && self.is_owned(line)
    }

    // Whether some line above this one is owned.
    fn owns_some_above(&self, below: u8) -> bool
        requires { IsParts self.now }
        ensures { result ≡ some_below 16 (λ line. nat_lt below line && is_owned (said_by self.now) line) }
    {
        let mut some = false;
        for line in 0..16 {
            some = some || self.owns_above(below, line);
        }
        some
    }

    fn is_gap(&self, line: u8) -> bool
        requires there { line < 16 }
        requires parts { IsParts self.now }
        ensures { result ≡ (not (is_owned (said_by self.now) line)
            && some_below 16 (λ above. nat_lt line above && is_owned (said_by self.now) above)) }
    {
        !self.is_owned(line) && self.owns_some_above(line)
    }

    #[tactic(auto, unfolding(crate::specs::Faults::has_gap))]
    fn has_gap(&self) -> bool
        requires { IsParts self.now }
        ensures { result ≡ has_gap (said_by self.now) }
    {
        let mut some = false;
        for line in 0..16 {
            some = some || self.is_gap(line);
        }
        some
    }

    /// The least rule that is violated where the text ends here.
    pub fn end_rule(&self) -> Option<u16>
        requires { IsParts self.now }
        ensures { result ≡ end_rule (said_by self.now) }
    {
        if self.process_count() == 0 {
            Some(ENDS_EARLY)
        } else if self.has_gap() {
            Some(GAP)
        } else {
            None
        }
    }

    /// The draft that these parts make up.
    pub fn draft(self) -> Draft
        requires parts { IsParts self }
        requires full { length self.numbers ≡ 7 }
        ensures { parts_of result ≡ self }
    {
        let desc = MachineDesc {
            processors: self.numbers.get(1) as u8,
            memories: self.numbers.get(2) as u8,
            ios: self.numbers.get(3) as u8,
            cache: self.numbers.get(4) as u16,
            quantum: self.numbers.get(5),
            journal: self.numbers.get(6),
            segments: self.segments,
            processes: self.processes,
        };
        Draft {
            desc,
            images: self.images,
            firsts: self.firsts,
        }
    }
}
