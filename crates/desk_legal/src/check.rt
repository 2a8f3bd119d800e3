ghost use Rattle.std.specs.Prelude.{◌≡◌, Ok};
ghost use Rattle.desk_legal.specs.Legal.{first_illegal};

use crate::exercises::{bad_exercise, bad_extension};
use crate::grades::bad_grade;
use crate::orders::bad_order;
use crate::submissions::bad_submission;
use crate::users::bad_user;
use desk_keeper::Tables;
use std::alloc::{AllocError, Global};

/// The least table, from 1 to 6, and its least row, from 1, that breaks a rule of legal tables; none where the tables are
/// legal. It takes no memory, so its error never comes.
pub fn check_tables(_alloc: Global, tables: &Tables) -> Result<Option<(u8, u64)>, AllocError>
    ensures value { result ≡ Ok (first_illegal tables.now) }
{
    Ok(first_illegal(tables))
}

fn first_illegal(tables: &Tables) -> Option<(u8, u64)>
    ensures value { result ≡ first_illegal tables.now }
{
    if let Some(row) = bad_user(tables) {
        return Some((1, row));
    }
    if let Some(row) = bad_exercise(tables.exercises.as_slice()) {
        return Some((2, row));
    }
    if let Some(row) = bad_extension(tables) {
        return Some((3, row));
    }
    if let Some(row) = bad_submission(tables) {
        return Some((4, row));
    }
    if let Some(row) = bad_grade(tables) {
        return Some((5, row));
    }
    bad_order(tables).map(|row| (6, row))
}
