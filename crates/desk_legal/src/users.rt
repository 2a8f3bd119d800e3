ghost use Rattle.std.specs.Prelude.{◌≡◌};
ghost use Rattle.desk_legal.specs.Legal.{bad_user, has_no_others, may_begin, user_may};
ghost use Rattle.desk_legal.specs.Prefixes.{first_bad};

use desk_forms::{is_token, is_user_name};
use desk_keeper::{Tables, UserRow};
use desk_machine::{has_token, is_teacher};

/// The most users of a course.
const MOST_USERS: usize = 100_000;

/// The least user that breaks a rule, by its place from 1. Where there is no user but another row, the first is missing.
pub(crate) fn bad_user(tables: &Tables) -> Option<u64>
    ensures value { result ≡ bad_user tables.now tables.now.users }
{
    let users = tables.users.as_slice();
    if users.is_empty() && has_no_others(tables) {
        return None;
    }
    if users.is_empty() {
        return Some(1);
    }
    first_bad_user(users)
}

fn first_bad_user(users: &[UserRow]) -> Option<u64>
    ensures value { result ≡ first_bad user_may users.now }
{
    for place in 0..users.len() {
        if !user_may(&users[..place], &users[place]) {
            return Some(place as u64 + 1);
        }
    }
    None
}

fn user_may(before: &[UserRow], user: &UserRow) -> bool
    ensures value { result ≡ user_may before.now user.now }
{
    is_token(user.token.as_slice())
        && is_user_name(user.name.as_slice())
        && !has_token(&user.token, before)
        && may_begin(before, user)
        && before.len() < MOST_USERS
}

/// The first user is a teacher.
fn may_begin(before: &[UserRow], user: &UserRow) -> bool
    ensures value { result ≡ may_begin before.now user.now }
{
    match before {
        [] => is_teacher(user.role),
        [_, ..] => true,
    }
}

/// Whether no table but that of the users has a row.
fn has_no_others(tables: &Tables) -> bool
    ensures value { result ≡ has_no_others tables.now }
{
    tables.exercises.len() == 0
        && tables.extensions.len() == 0
        && tables.submissions.len() == 0
        && tables.grades.len() == 0
        && tables.orders.len() == 0
}
