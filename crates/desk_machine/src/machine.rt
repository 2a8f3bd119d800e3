ghost use Rattle.std.specs.Prelude.{◌≡◌, ℕ, List, IfOk};
ghost use Rattle.desk_machine.specs.Machine.{
  IsReading,
  IsRequest,
  plan,
  plan_finish,
  plan_release,
  plan_take,
  tells,
};
ghost use Rattle.desk_machine.specs.Rules.{Rules};
ghost use Rattle.desk_machine.specs.declared.plans.Held.{Held};
ghost use Rattle.desk_machine.specs.declared.plans.Hold.TheVariants.{Stays};

use crate::book::plan_book;
use crate::enrolling::plan_roll;
use crate::extending::plan_extend;
use crate::jobs::{holds, offered};
use crate::ordering::plan_regrade;
use crate::reading::{plan_mine, plan_names, plan_one, plan_sheet};
use crate::setting::plan_set;
use crate::submitting::plan_submit;
use crate::{Answer, Command, FinishFault, Grader, Held, Hold, Plan, Rows, Slip, user_of};
use desk_keeper::{Grade, GradeRow, Row, Tables};
use edge_io::Bytes;
use lists::Copied;
use std::alloc::{AllocError, Global};

/// What a command answers and changes.
pub fn plan<G: Grader>(
    alloc: Global,
    grader: &G,
    zone: &Bytes,
    tables: &Tables,
    held: &[Held],
    command: &Command,
) -> Result<Plan, AllocError>
    ensures value { IfOk result (λ p. p ≡ plan G.rules (record { zone = zone.now; tables = tables.now; held = held.now }) command.now) }
{
    match command {
        Command::Take(worker) => Ok(plan_take(alloc, *worker, offered(alloc, tables, held)?)),
        Command::Finish(worker, ticket, version, grade) => {
            plan_finish(alloc, held, *worker, *ticket, *version, grade)
        }
        Command::Release(worker, ticket, version) => {
            Ok(plan_release(alloc, held, *worker, *ticket, *version))
        }
        _ => plan_request(alloc, grader, zone, tables, command),
    }
}

/// What a request answers and changes.
fn plan_request<G: Grader>(
    alloc: Global,
    grader: &G,
    zone: &Bytes,
    tables: &Tables,
    command: &Command,
) -> Result<Plan, AllocError>
    requires request { IsRequest command.now }
    ensures value { (held : List Held) → IfOk result (λ p. p ≡ plan G.rules (record { zone = zone.now; tables = tables.now; held = held }) command.now) }
{
    let users = tables.users.as_slice();
    match command {
        Command::Roll(token, listed) => {
            let p = plan_roll(alloc, user_of(users, token), users, listed.as_slice())?;
            Ok(planned(Answer::Roll(p.answer), p.rows))
        }
        Command::SetExercise(token, name, text) => {
            let rows = tables.exercises.as_slice();
            let p = plan_set(alloc, grader, zone, user_of(users, token), rows, name, text)?;
            Ok(planned(Answer::SetExercise(p.answer), p.rows))
        }
        Command::Extend(token, name, student, civil) => {
            let known = user_of(users, token);
            let p = plan_extend(alloc, grader, zone, known, tables, name, *student, civil)?;
            Ok(planned(Answer::Extend(p.answer), p.rows))
        }
        Command::Submit(token, name, key, file, moment) => {
            let known = user_of(users, token);
            let p = plan_submit(alloc, known, tables, name, key, file, *moment)?;
            Ok(planned(Answer::Submit(p.answer), p.rows))
        }
        Command::Regrade(token, name) => {
            let p = plan_regrade(alloc, user_of(users, token), tables, name)?;
            Ok(planned(Answer::Regrade(p.answer), p.rows))
        }
        _ => Ok(tells(alloc, told(alloc, tables, command)?)),
    }
}

/// What a command that changes nothing answers.
fn told(alloc: Global, tables: &Tables, command: &Command) -> Result<Answer, AllocError>
    requires reading { IsReading command.now }
    ensures value { (rules : Rules) (zone : List ℕ) (held : List Held) → IfOk result (λ answer. tells answer ≡ plan rules (record { zone = zone; tables = tables.now; held = held }) command.now) }
{
    let users = tables.users.as_slice();
    let exercises = tables.exercises.as_slice();
    match command {
        Command::Mine(token) => {
            Ok(Answer::Mine(plan_mine(alloc, user_of(users, token), tables)?))
        }
        Command::One(token, number) => {
            let known = user_of(users, token);
            Ok(Answer::One(plan_one(alloc, known, tables, *number)?))
        }
        Command::Names(token) => {
            let known = user_of(users, token);
            Ok(Answer::Names(plan_names(alloc, known, exercises)?))
        }
        Command::Sheet(token, name) => {
            let known = user_of(users, token);
            Ok(Answer::Sheet(plan_sheet(alloc, known, exercises, name)?))
        }
        Command::Book(token) => {
            Ok(Answer::Book(plan_book(alloc, user_of(users, token), tables)?))
        }
        _ => unreachable!(),
    }
}

fn planned(answer: Answer, rows: Rows) -> Plan
    ensures value { result ≡ record { answer = answer; rows = rows; hold = Stays } }
{
    Plan {
        answer,
        rows,
        hold: Hold::Stays,
    }
}

fn tells(alloc: Global, answer: Answer) -> Plan
    ensures value { result ≡ tells answer }
{
    planned(answer, Rows::new(alloc))
}

fn plan_take(alloc: Global, worker: u64, slip: Option<Slip>) -> Plan
    ensures value { result ≡ plan_take worker slip }
{
    let Some(slip) = slip else {
        return tells(alloc, Answer::Take(None));
    };
    let taken = Held {
        worker,
        ticket: slip.ticket,
        version: slip.version,
    };
    Plan {
        answer: Answer::Take(Some(slip)),
        rows: Rows::new(alloc),
        hold: Hold::Takes(taken),
    }
}

fn plan_finish(
    alloc: Global,
    held: &[Held],
    worker: u64,
    ticket: u64,
    version: u32,
    grade: &Grade,
) -> Result<Plan, AllocError>
    ensures value { IfOk result (λ p. p ≡ plan_finish held.now worker ticket version grade.now) }
{
    if !holds(held, worker, ticket, version) {
        let refused = Answer::Finish(Err(FinishFault::NotTaken));
        return Ok(tells(alloc, refused));
    }
    let grade = grade.copied(alloc)?;
    let mut rows = Rows::new(alloc);
    rows.add(Row::Graded(GradeRow {
        ticket,
        version,
        grade,
    }))?;
    Ok(Plan {
        answer: Answer::Finish(Ok(())),
        rows,
        hold: Hold::Drops(Held {
            worker,
            ticket,
            version,
        }),
    })
}

fn plan_release(alloc: Global, held: &[Held], worker: u64, ticket: u64, version: u32) -> Plan
    ensures value { result ≡ plan_release held.now worker ticket version }
{
    if !holds(held, worker, ticket, version) {
        return tells(alloc, Answer::Release(false));
    }
    Plan {
        answer: Answer::Release(true),
        rows: Rows::new(alloc),
        hold: Hold::Drops(Held {
            worker,
            ticket,
            version,
        }),
    }
}
