//! Laws of every outcome. The functions do nothing: what they say is in their contracts.
ghost use Rattle.seq_rv32.specs.Outcomes.{StoresArePut, OutcomesArePlain, WordsStayWords};

/// Every store is of an aligned width, at a place where the memory has a number.
#[tactic(auto, using(crate::proofs::Outcomes::stores_are_put))]
pub fn stores_are_put()
    ensures { StoresArePut }
{}

/// No instruction writes x0, and each trap has one of the eight causes.
#[tactic(auto, using(crate::proofs::Outcomes::outcomes_are_plain))]
pub fn outcomes_are_plain()
    ensures { OutcomesArePlain }
{}

/// From registers of 32 bits and a memory of bytes, no number that is written, jumped to or trapped with is larger.
#[tactic(auto, using(crate::proofs::Outcomes::words_stay_words))]
pub fn words_stay_words()
    ensures { WordsStayWords }
{}
