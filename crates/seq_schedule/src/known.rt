// What is known of an element, as far as it is out or ends the out of others.
ghost use Rattle.std.specs.Prelude.{◌≡◌, ◌+◌, ◌≤◌, ◌<◌, true, not, ◌&&◌, ◌||◌, ◌==◌, nat_le, nat_lt, if◌then◌else◌};
ghost use Rattle.seq_schedule.specs.Known.{fresh, is_over, mended, settled, counted, turned, uncounted};

/// What makes an element out.
#[derive(Clone, Copy, Debug, PartialEq, Eq)]
pub enum Trouble {
    /// Nothing does: it is not out.
    Over,
    /// It failed, and isn't repaired since.
    Failed,
    /// It was struck.
    Upset,
    /// It was repaired after it failed, and the turns that end this aren't all counted yet.
    Mended,
}

/// Which count of turns.
#[derive(Clone, Copy, Debug, PartialEq, Eq)]
pub enum Count {
    First,
    Second,
}

/// What is known of an element.
#[derive(Clone, Copy, Debug, PartialEq, Eq)]
pub struct Known {
    pub trouble: Trouble,
    /// It is failed.
    pub failed: bool,
    /// The turns that it took since the last failure, repair or upset of any element, up to as many as are needed.
    pub first: u32,
    /// Those of them that it took since all first counts had reached half of what is needed.
    pub second: u32,
}

impl Known {
    /// Nothing is known yet.
    pub fn fresh() -> Known
        ensures { result ≡ fresh }
    {
        Known {
            trouble: Trouble::Over,
            failed: false,
            first: 0,
            second: 0,
        }
    }

    /// Whether it is out.
    pub fn is_out(&self) -> bool
        ensures { result ≡ not (is_over self.now.trouble) }
    {
        !matches!(self.trouble, Trouble::Over)
    }

    /// It fails.
    pub fn failed(self) -> Known
        ensures { result ≡ record self { trouble = Trouble.Failed; failed = true } }
    {
        Known {
            trouble: Trouble::Failed,
            failed: true,
            ..self
        }
    }

    /// It is struck.
    pub fn upset(self) -> Known
        ensures { result ≡ record self { trouble = Trouble.Upset } }
    {
        Known {
            trouble: Trouble::Upset,
            ..self
        }
    }

    /// It is repaired.
    pub fn repaired(self) -> Known
        ensures { result ≡ mended self }
    {
        let trouble = match self.trouble {
            Trouble::Failed => Trouble::Mended,
            Trouble::Over => Trouble::Over,
            Trouble::Upset => Trouble::Upset,
            Trouble::Mended => Trouble::Mended,
        };
        Known {
            trouble,
            failed: false,
            ..self
        }
    }

    /// It takes a turn, which its second count counts too where it has begun. No count goes above `most`.
    pub fn turned(self, begun: bool, most: u32) -> Known
        ensures { result ≡ turned self begun most }
    {
        Known {
            first: one_more(self.first, most),
            second: if begun {
                one_more(self.second, most)
            } else {
                self.second
            },
            ..self
        }
    }

    /// The counts begin anew.
    pub fn uncounted(self) -> Known
        ensures { result ≡ uncounted self }
    {
        Known {
            first: 0,
            second: 0,
            ..self
        }
    }

    /// The counts that end its out are met, or they aren't.
    pub fn settled(self, met: bool) -> Known
        ensures { result ≡ settled met self }
    {
        match self.trouble {
            Trouble::Mended if met => Known {
                trouble: Trouble::Over,
                ..self
            },
            _ => self,
        }
    }

    /// Whether a count is at least so high, or needn't be since it is failed.
    pub fn has(&self, count: Count, turns: u32) -> bool
        ensures { result ≡ (self.now.failed || nat_le turns (counted count self.now)) }
    {
        self.failed
            || turns
                <= match count {
                    Count::First => self.first,
                    Count::Second => self.second,
                }
    }
}

// One more, up to `most`.
fn one_more(count: u32, most: u32) -> u32
    ensures { result ≡ (if nat_lt count most then count + 1 else count) }
{
    if count < most { count + 1 } else { count }
}
