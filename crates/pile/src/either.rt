// One of two stores.

/// A store of one kind or of another.
#[derive(Drop)]
pub enum Either<A, B> {
    Left(A),
    Right(B),
}
