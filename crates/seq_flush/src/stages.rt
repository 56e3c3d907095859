/// Pass1 is written to the status word: first to its primary, then to its shadow.
#[derive(Drop, Debug, PartialEq, Eq)]
pub struct Mark;

/// Each unit is written to its primary; then comes the commit.
#[derive(Drop, Debug, PartialEq, Eq)]
pub struct First;

/// Pass2 is written to the shadow of the status word, and then each unit to its shadow.
#[derive(Drop, Debug, PartialEq, Eq)]
pub struct Second;

/// Run is written to the status word: first to its primary, then to its shadow.
#[derive(Drop, Debug, PartialEq, Eq)]
pub struct Close;

/// The flush is done: every unit stands on each copy that is in service.
#[derive(Drop, Debug, PartialEq, Eq)]
pub struct Closed;
