ghost use Rattle.std.specs.Prelude.{◌≡◌, ◌||◌, [], map, IfOk};
ghost use Rattle.std.specs.List.{list_any};
ghost use Rattle.desk_keeper.specs.declared.rows.Row.TheVariants.{User};
ghost use Rattle.desk_machine.specs.Enrolling.{
  bad_behind,
  clashes,
  enrols,
  enrols_unless,
  has_token,
  new_behind,
  plan_roll,
  same_role,
  user_code,
};

use crate::plans::says;
use crate::users::{in_32_bits, is_student, is_teacher};
use crate::{Known, Planned, RollFault, Rows};
use desk_forms::{is_token, is_user_name};
use desk_keeper::{Role, Row, UserRow};
use edge_io::Bytes;
use lists::Copied;
use std::alloc::{AllocError, Global};

/// The most users of a course.
const MOST_USERS: usize = 100_000;

/// A teacher enrols the users. One that is kept alike is skipped.
pub fn plan_roll(
    alloc: Global,
    known: Option<Known>,
    kept: &[UserRow],
    users: &[UserRow],
) -> Result<Planned<Result<u32, RollFault>>, AllocError>
    ensures value { IfOk result (λ p. p ≡ plan_roll known kept.now users.now) }
{
    let Some(known) = known else {
        return Ok(says(alloc, Err(RollFault::UnknownToken)));
    };
    if !is_teacher(known.role) {
        return Ok(says(alloc, Err(RollFault::Role)));
    }
    enrols_unless(alloc, first_bad(kept, users), kept, users)
}

fn enrols_unless(
    alloc: Global,
    bad: Option<(u32, u16)>,
    kept: &[UserRow],
    users: &[UserRow],
) -> Result<Planned<Result<u32, RollFault>>, AllocError>
    ensures value { IfOk result (λ p. p ≡ enrols_unless bad kept.now users.now) }
{
    match bad {
        Some((place, code)) => Ok(says(alloc, Err(RollFault::BadUser(place, code)))),
        None => Ok(enrols(alloc, kept, new_rows(alloc, kept, users)?)),
    }
}

fn enrols(alloc: Global, kept: &[UserRow], rows: Rows) -> Planned<Result<u32, RollFault>>
    ensures value { result ≡ enrols kept.now rows }
{
    let count = rows.len();
    if count == 0 {
        return says(alloc, Ok(0));
    }
    if count > MOST_USERS.saturating_sub(kept.len()) {
        return says(alloc, Err(RollFault::TooManyUsers(100_000)));
    }
    Planned {
        answer: Ok(count as u32),
        rows,
    }
}

/// The least user of the list with which something is wrong, and its code.
fn first_bad(kept: &[UserRow], users: &[UserRow]) -> Option<(u32, u16)>
    ensures value { result ≡ bad_behind kept.now [] users.now }
{
    for place in 0..users.len() {
        if let Some(code) = user_code(kept, &users[..place], &users[place]) {
            return Some((in_32_bits(place + 1), code));
        }
    }
    None
}

/// What is wrong with a user behind these in the list.
fn user_code(kept: &[UserRow], earlier: &[UserRow], user: &UserRow) -> Option<u16>
    ensures value { result ≡ user_code kept.now earlier.now user.now }
{
    if !is_token(user.token.as_slice()) {
        return Some(1);
    }
    if !is_user_name(user.name.as_slice()) {
        return Some(2);
    }
    if has_clash(user, kept) || has_clash(user, earlier) {
        return Some(3);
    }
    None
}

fn has_clash(user: &UserRow, others: &[UserRow]) -> bool
    ensures value { result ≡ list_any (clashes user.now) others.now }
{
    others.iter().any(|other| clashes(user, other))
}

/// Whether the other user has this one's token, but another role or name.
fn clashes(user: &UserRow, other: &UserRow) -> bool
    ensures value { result ≡ clashes user.now other.now }
{
    other.token == user.token && !(same_role(other.role, user.role) && other.name == user.name)
}

fn same_role(one: Role, other: Role) -> bool
    ensures value { result ≡ same_role one other }
{
    match one {
        Role::Student => is_student(other),
        Role::Teacher => is_teacher(other),
    }
}

/// The rows of the users that are new.
fn new_rows(alloc: Global, kept: &[UserRow], users: &[UserRow]) -> Result<Rows, AllocError>
    ensures value { IfOk result (λ rows. rows ≡ map User (new_behind kept.now [] users.now)) }
{
    let mut rows = Rows::new(alloc);
    for place in 0..users.len() {
        let user = &users[place];
        if !is_known(&user.token, kept, &users[..place]) {
            rows.add(Row::User(user.copied(alloc)?))?;
        }
    }
    Ok(rows)
}

fn is_known(token: &Bytes, kept: &[UserRow], earlier: &[UserRow]) -> bool
    ensures value { result ≡ (list_any (has_token token.now) kept.now || list_any (has_token token.now) earlier.now) }
{
    has_token(token, kept) || has_token(token, earlier)
}

/// Whether one of the users has the token.
pub fn has_token(token: &Bytes, users: &[UserRow]) -> bool
    ensures value { result ≡ list_any (has_token token.now) users.now }
{
    users.iter().any(|user| user.token == *token)
}
