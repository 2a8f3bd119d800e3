use edge_io::Bytes;
use lists::Listed;

/// What a user may do: a student submits, a teacher sets and grades.
#[derive(Clone, Copy, Debug, PartialEq, Eq)]
pub enum Role {
    Student,
    Teacher,
}

/// A user. Its number is its place in the table, counted from 1.
#[derive(Drop)]
pub struct UserRow {
    /// What the user shows to be known.
    pub token: Bytes,
    pub role: Role,
    pub name: Bytes,
}

/// What an exercise's text sets.
#[derive(Drop)]
pub struct Settings {
    /// What a correct submission on time earns.
    pub points: u32,
    /// What a late day costs, in hundredths of the points.
    pub percent: u32,
    /// The due moment in seconds since 1970.
    pub due: u64,
    /// How many days after the due moment submissions are still accepted.
    pub close_days: u32,
    /// How many submissions a student has.
    pub attempts: u32,
    /// What the student reads.
    pub prompt: Bytes,
}

/// A version of an exercise.
#[derive(Drop)]
pub struct ExerciseRow {
    pub name: Bytes,
    /// Counted from 1 for each name.
    pub version: u32,
    pub text: Bytes,
    pub settings: Settings,
}

/// Another due moment for one student.
#[derive(Drop)]
pub struct ExtensionRow {
    /// The exercise's name.
    pub name: Bytes,
    /// The student's number.
    pub student: u32,
    /// The due moment in seconds since 1970.
    pub due: u64,
}

/// A submission. Its ticket is its place in the table, counted from 1.
#[derive(Drop)]
pub struct SubmissionRow {
    /// The student's number.
    pub student: u32,
    /// Counted from 1 for each student.
    pub number: u32,
    /// The exercise's name.
    pub name: Bytes,
    /// The version of the exercise that was the latest when the submission was accepted.
    pub version: u32,
    /// The student's key for the submission, by which a repeat is known.
    pub key: Bytes,
    pub file: Bytes,
    /// When it was accepted, in seconds since 1970.
    pub moment: u64,
    /// How many days it was late, begun days included.
    pub late_days: u64,
}

/// A grade: a code, and what the code speaks of.
#[derive(Drop)]
pub struct Grade {
    pub code: u16,
    /// The line or the number that the grade speaks of.
    pub a: u32,
    pub b: u32,
    pub c: u32,
    /// The name that the grade speaks of.
    pub note: Bytes,
}

/// A grade of a submission by a version of its exercise.
#[derive(Drop)]
pub struct GradeRow {
    pub ticket: u64,
    pub version: u32,
    pub grade: Grade,
}

/// An order to grade submissions by a version of their exercise.
#[derive(Drop)]
pub struct OrderRow {
    /// The exercise's name.
    pub name: Bytes,
    pub version: u32,
    /// The greatest ticket that the order is for.
    pub upto: u64,
}

/// A row of one of the six tables.
#[derive(Drop)]
pub enum Row {
    User(UserRow),
    Exercise(ExerciseRow),
    Extension(ExtensionRow),
    Submission(SubmissionRow),
    Graded(GradeRow),
    Order(OrderRow),
}

pub type Users = Listed<UserRow>;

pub type Exercises = Listed<ExerciseRow>;

pub type Extensions = Listed<ExtensionRow>;

pub type Submissions = Listed<SubmissionRow>;

pub type Grades = Listed<GradeRow>;

pub type Orders = Listed<OrderRow>;
