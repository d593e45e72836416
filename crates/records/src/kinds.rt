// Which of the records of a byte are kept: those that have an edge, or the flags of one kind.
#[derive(Clone, Copy, PartialEq, Eq, Debug)]
pub enum Kept {
    Edged = 0,
    FirstOnly = 1,
    SecondOnly = 2,
    Both = 3,
}
