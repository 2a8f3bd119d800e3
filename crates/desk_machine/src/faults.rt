use edge_io::Bytes;
use thiserror::Error;

/// Why a roll was refused.
#[derive(Clone, Copy, Debug, Error)]
pub enum RollFault {
    #[error("no user has the token")]
    UnknownToken,
    #[error("the user is no teacher")]
    Role,
    /// The user at this place of the list, from 1, has no token (1), no name (2), or another one's token (3).
    #[error("user {0} of the list is refused with code {1}")]
    BadUser(u32, u16),
    /// There would be more users than this.
    #[error("there would be more than {0} users")]
    TooManyUsers(u32),
    #[error("out of memory")]
    Memory,
    #[error("the keeper of rows failed")]
    KeeperFault,
}

/// Why an exercise wasn't set.
#[derive(Clone, Copy, Debug, Error)]
pub enum SetFault {
    #[error("no user has the token")]
    UnknownToken,
    #[error("the user is no teacher")]
    Role,
    #[error("this is no exercise name")]
    BadName,
    /// The text is refused with this code, for this field.
    #[error("the text is refused with code {0} in field {1}")]
    Text(u16, u32),
    /// There would be more versions of exercises than this.
    #[error("there would be more than {0} versions of exercises")]
    TooManyVersions(u32),
    #[error("out of memory")]
    Memory,
    #[error("the keeper of rows failed")]
    KeeperFault,
}

/// Why an extension was refused.
#[derive(Clone, Copy, Debug, Error)]
pub enum ExtendFault {
    #[error("no user has the token")]
    UnknownToken,
    #[error("the user is no teacher")]
    Role,
    #[error("there is no exercise of this name")]
    NoExercise,
    #[error("no student has this number")]
    NoStudent,
    #[error("this is no due moment")]
    BadDue,
    #[error("out of memory")]
    Memory,
    #[error("the keeper of rows failed")]
    KeeperFault,
}

/// Why a submission was refused.
#[derive(Debug, Drop, Error)]
pub enum SubmitFault {
    #[error("no user has the token")]
    UnknownToken,
    #[error("the user is no student")]
    Role,
    #[error("there is no exercise of this name")]
    NoExercise,
    #[error("this is no key")]
    BadKey,
    /// The student used the key for another exercise or other bytes: for this exercise, with this number.
    #[error("the key was used for submission {1}")]
    KeyReused(Bytes, u32),
    /// Submissions were accepted up to this moment.
    #[error("closed since {0}")]
    Closed(u64),
    /// The student has so many submissions to the exercise, and may have no more.
    #[error("all {0} attempts are used")]
    AttemptsUsed(u32),
    /// The student has so many submissions.
    #[error("all {0} numbers are used")]
    NumbersUsed(u32),
    #[error("out of memory")]
    Memory,
    #[error("the keeper of rows failed")]
    KeeperFault,
}

/// Why a student's submissions weren't told.
#[derive(Clone, Copy, Debug, Error)]
pub enum MineFault {
    #[error("no user has the token")]
    UnknownToken,
    #[error("the user is no student")]
    Role,
    #[error("out of memory")]
    Memory,
}

/// Why a submission wasn't told.
#[derive(Clone, Copy, Debug, Error)]
pub enum OneFault {
    #[error("no user has the token")]
    UnknownToken,
    #[error("the user is no student")]
    Role,
    #[error("the student has no submission of this number")]
    NoNumber,
    #[error("out of memory")]
    Memory,
}

/// Why the exercises' names weren't told.
#[derive(Clone, Copy, Debug, Error)]
pub enum NamesFault {
    #[error("no user has the token")]
    UnknownToken,
    #[error("out of memory")]
    Memory,
}

/// Why an exercise wasn't told.
#[derive(Clone, Copy, Debug, Error)]
pub enum SheetFault {
    #[error("no user has the token")]
    UnknownToken,
    #[error("there is no exercise of this name")]
    NoExercise,
    #[error("out of memory")]
    Memory,
}

/// Why the book wasn't told.
#[derive(Clone, Copy, Debug, Error)]
pub enum BookFault {
    #[error("no user has the token")]
    UnknownToken,
    #[error("the user is no teacher")]
    Role,
    #[error("out of memory")]
    Memory,
}

/// Why nothing was ordered to be graded anew.
#[derive(Clone, Copy, Debug, Error)]
pub enum RegradeFault {
    #[error("no user has the token")]
    UnknownToken,
    #[error("the user is no teacher")]
    Role,
    #[error("there is no exercise of this name")]
    NoExercise,
    #[error("out of memory")]
    Memory,
    #[error("the keeper of rows failed")]
    KeeperFault,
}

/// Why a grade wasn't kept.
#[derive(Clone, Copy, Debug, Error)]
pub enum FinishFault {
    #[error("the worker doesn't hold the job")]
    NotTaken,
    #[error("out of memory")]
    Memory,
    #[error("the keeper of rows failed")]
    KeeperFault,
}
