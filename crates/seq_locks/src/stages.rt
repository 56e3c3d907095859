/// The primary is next.
#[derive(Drop, Debug, PartialEq, Eq)]
pub struct Primary;

/// The shadow is next.
#[derive(Drop, Debug, PartialEq, Eq)]
pub struct Shadow;

/// The word is claimed: each copy in service holds the claimant's value.
#[derive(Drop, Debug, PartialEq, Eq)]
pub struct Held;

/// The word is released.
#[derive(Drop, Debug, PartialEq, Eq)]
pub struct Free;
