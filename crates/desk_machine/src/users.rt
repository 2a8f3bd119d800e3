ghost use Rattle.std.specs.Prelude.{◌≡◌};
ghost use Rattle.desk_machine.specs.Users.{has_student, in_32_bits, is_student, is_teacher, user_of};

use desk_keeper::{Role, UserRow};
use edge_io::Bytes;

/// A user that has shown its token.
#[derive(Clone, Copy)]
pub struct Known {
    pub number: u32,
    pub role: Role,
}

/// The user with the token.
pub fn user_of(users: &[UserRow], token: &Bytes) -> Option<Known>
    ensures value { result ≡ user_of users.now token.now }
{
    for place in 0..users.len() {
        let user = &users[place];
        if user.token == *token {
            return Some(Known {
                number: in_32_bits(place + 1),
                role: user.role,
            });
        }
    }
    None
}

/// The number, as far as 32 bits go.
pub(crate) fn in_32_bits(number: usize) -> u32
    ensures value { result ≡ in_32_bits number }
{
    number.min(4_294_967_295) as u32
}

/// Whether the role is a teacher's.
pub fn is_teacher(role: Role) -> bool
    ensures value { result ≡ is_teacher role }
{
    match role {
        Role::Teacher => true,
        Role::Student => false,
    }
}

/// Whether the role is a student's.
pub fn is_student(role: Role) -> bool
    ensures value { result ≡ is_student role }
{
    match role {
        Role::Teacher => false,
        Role::Student => true,
    }
}

/// Whether a student has the number.
pub fn has_student(users: &[UserRow], number: u32) -> bool
    ensures value { result ≡ has_student users.now number }
{
    if number == 0 {
        return false;
    }
    match users.get(number as usize - 1) {
        Some(user) => is_student(user.role),
        None => false,
    }
}
