/// What a turn of an operation leaves: a turn of the same stage is next, or one of the next stage.
#[derive(Clone, Copy)]
pub enum Step<A, B> {
    Again(A),
    Next(B),
}
