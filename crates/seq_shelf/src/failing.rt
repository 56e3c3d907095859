// The calls of an object in memory that are to fail.
ghost use Rattle.std.specs.Prelude.{◌≡◌, ◌≤◌, true};
ghost use Rattle.seq_shelf.specs.Calls.{is_due, after_call};
ghost use Rattle.seq_shelf.specs.Causes.{Rose};

use seq_words::Bytes;

/// Which calls are to fail, by their numbers from 0, and how many calls were made and failed.
#[derive(Drop)]
pub struct Failing {
    numbers: Bytes,
    calls: u64,
    faults: u64,
}

impl Failing {
    /// No call was made yet.
    pub fn new(numbers: Bytes) -> Self
        ensures { result ≡ record { numbers = numbers; calls = 0; faults = 0 } }
    {
        Failing {
            numbers,
            calls: 0,
            faults: 0,
        }
    }

    /// Counts a call, and says whether it is to fail.
    pub fn fails(&mut self) -> bool
        ensures due { result ≡ is_due self.old }
        ensures after { self.new ≡ after_call self.old }
        ensures never_falls { self.old.faults ≤ self.new.faults }
        ensures counts { result ≡ true → Rose self.old.faults self.new.faults }
    {
        let due = self.is_due();
        self.calls = self.calls.saturating_add(1);
        if due {
            self.faults = self.faults.saturating_add(1);
        }
        due
    }

    // Whether the next call is to fail.
    fn is_due(&self) -> bool
        ensures { result ≡ is_due self.now }
    {
        self.numbers
            .as_slice()
            .iter()
            .any(|number| u64::from(*number) == self.calls)
    }
}
