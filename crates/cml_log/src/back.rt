/// The error of a push for which there was no memory. It holds the item.
#[derive(Debug, PartialEq, Eq, Drop)]
pub struct Back<T>(pub T);
