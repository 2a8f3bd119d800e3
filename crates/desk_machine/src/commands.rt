use desk_keeper::{Grade, Users};
use edge_io::Bytes;

/// What the desk is asked. A request begins with its user's token.
#[derive(Drop)]
pub enum Command {
    /// The token, and the users to be enrolled.
    Roll(Bytes, Users),
    /// The token, the exercise's name, and its text.
    SetExercise(Bytes, Bytes, Bytes),
    /// The token, the exercise's name, the student's number, and the civil time of the due moment.
    Extend(Bytes, Bytes, u32, Bytes),
    /// The token, the exercise's name, the key, the file, and the moment in seconds since 1970.
    Submit(Bytes, Bytes, Bytes, Bytes, u64),
    Mine(Bytes),
    /// The token, and the number of a submission.
    One(Bytes, u32),
    Names(Bytes),
    /// The token, and the exercise's name.
    Sheet(Bytes, Bytes),
    Book(Bytes),
    /// The token, and the exercise's name.
    Regrade(Bytes, Bytes),
    /// The worker's number.
    Take(u64),
    /// The worker's number, the ticket, the version, and the grade.
    Finish(u64, u64, u32, Grade),
    /// The worker's number, the ticket, and the version.
    Release(u64, u64, u32),
}
