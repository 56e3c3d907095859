/// One of the two halves of a processor, which take the same steps and are compared.
#[derive(Clone, Copy, Debug, PartialEq, Eq)]
pub enum Half {
    A,
    B,
}
