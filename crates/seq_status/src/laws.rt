//! Laws of statuses and their words. The functions do nothing: what they say is in their contracts.
ghost use Rattle.seq_status.specs.Words.{StatusesAreReadBack, StatusesHaveTheFormat, WordsAreWrittenBack, WordsOfTheFormatAreRead, HeldIsNotZero, StatusesFit};

/// The word of a status whose numbers have their places is read as that status, and is inside the format of 64 bits. It is 0 for
/// Idle alone.
pub fn statuses_are_read_back()
    ensures read_back { StatusesAreReadBack }
    ensures inside { StatusesHaveTheFormat }
    ensures fits { StatusesFit }
    ensures held { HeldIsNotZero }
{}

/// A word is that of the status as which it is read. It is read as one exactly where it is inside the format.
pub fn words_are_written_back()
    ensures written_back { WordsAreWrittenBack }
    ensures found { WordsOfTheFormatAreRead }
{}
