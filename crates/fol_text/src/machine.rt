ghost use Rattle.std.specs.Prelude.{◌≡◌, [], ◌∷◌, ◌++◌, ◌+◌, Ok, Err, ◌<◌, nat_lt, length, if◌then◌else◌};
ghost use Rattle.fol_text.specs.Machine.{Gives, Leaves, step as step_of, finished as finished_of, after_part as after_part_of, begin_part as begin_part_of, begin_word as begin_word_of, take_variable as take_variable_of, after_predicate as after_predicate_of, take_term as take_term_of, open_call as open_call_of, in_call as in_call_of, after_argument as after_argument_of, after_left as after_left_of, after_right as after_right_of, at_spot as at_spot_of, behind_term as behind_term_of, after_term as after_term_of, ended_term as ended_term_of, with_word as with_word_of, word_of as word_of_of, read_term as read_term_of, related as related_of, open_group as open_group_of, close_group as close_group_of, negated as negated_of, ended as ended_of, ended_in as ended_in_of, with_room as with_room_of, state as state_of, whole as whole_of, wrapped as wrapped_of};

use crate::fault::Refusal;
use crate::joining::{whole, wrapped};
use crate::stack::Stack;
use crate::state::{Call, Group, Mode, Prefix, Quantifier, Read, Relation, Spot, State};
use crate::token::Token;
use crate::word::{is_predicate, is_variable, read_term, word_of};
use fol_core::{Ident, Sent, Term, Terms};
use lists::{Listed, Nonempty};
use sqlite_items::Boxed;
use std::alloc::Global;
use std::mem;

impl State {
    /// Takes one more token. A state that refused one is of no use.
    pub(crate) fn step(&mut self, alloc: Global, token: Token) -> Result<(), Refusal>
        ensures value { Leaves self.new result (step_of self.old token) }
    {
        match mem::replace(&mut self.mode, Mode::WantsPart) {
            Mode::WantsPart => self.begin_part(alloc, token),
            Mode::WantsVariable(quantifier) => self.take_variable(quantifier, token),
            Mode::HasPredicate(predicate) => self.after_predicate(alloc, predicate, token),
            Mode::WantsTerm(spot, calls) => self.take_term(spot, calls, token),
            Mode::HasTerm(spot, calls, term) => self.after_term(alloc, spot, calls, term, token),
            Mode::HasPart(part) => self.after_part(alloc, part, token),
        }
    }

    /// An identifier, falsum, a prefix or an opening parenthesis begins a part.
    fn begin_part(&mut self, alloc: Global, token: Token) -> Result<(), Refusal>
        ensures value { Leaves self.new result (begin_part_of self.old.here self.old.outer token) }
    {
        match token {
            Token::Identifier(word) => self.begin_word(alloc, word),
            Token::FalsumSign => self.finish(alloc, Sent::Bottom),
            Token::NotSign => self.begin_negation(),
            Token::AllSign => self.begin_quantifier(Quantifier::Universal),
            Token::ExistsSign => self.begin_quantifier(Quantifier::Existential),
            Token::Open => self.begin_group(alloc),
            _ => Err(Refusal::Unexpected),
        }
    }

    /// A predicate or the left term of an equation begins a part.
    fn begin_word(&mut self, alloc: Global, word: Ident) -> Result<(), Refusal>
        ensures value { Leaves self.new result (begin_word_of word self.old.here self.old.outer) }
    {
        if is_predicate(&word) {
            self.mode = Mode::HasPredicate(word);
            return Ok(());
        }
        self.begin_term(alloc, word)
    }

    /// The first word of an equation.
    fn begin_term(&mut self, alloc: Global, word: Ident) -> Result<(), Refusal>
        ensures value { Leaves self.new result (with_word_of (word_of_of word) (λ r. state_of (Mode.HasTerm Spot.Left [] r) self.old.here self.old.outer)) }
    {
        match word_of(word) {
            None => Err(Refusal::Unexpected),
            Some(left) => {
                self.mode = Mode::HasTerm(Spot::Left, Stack::new(alloc), left);
                Ok(())
            }
        }
    }

    /// A `~`, where one more may be pending.
    fn begin_negation(&mut self) -> Result<(), Refusal>
        ensures value { Leaves self.new result (with_room_of self.old.here (negated_of self.old.here self.old.outer)) }
    {
        need_room(&self.here)?;
        self.here.prefixes.push(Prefix::Negation)?;
        self.mode = Mode::WantsPart;
        Ok(())
    }

    /// A quantifier's sign, where one more may be pending.
    fn begin_quantifier(&mut self, quantifier: Quantifier) -> Result<(), Refusal>
        ensures value { Leaves self.new result (with_room_of self.old.here (state_of (Mode.WantsVariable quantifier) self.old.here self.old.outer)) }
    {
        need_room(&self.here)?;
        self.mode = Mode::WantsVariable(quantifier);
        Ok(())
    }

    /// An opening parenthesis, where one more may be pending. The group around waits, and a new one begins in the room
    /// that is left.
    fn begin_group(&mut self, alloc: Global) -> Result<(), Refusal>
        ensures value { Leaves self.new result (with_room_of self.old.here (open_group_of self.old.here self.old.outer)) }
    {
        need_room(&self.here)?;
        let inner = Group::new(alloc, self.here.room - self.here.prefixes.len() - 1);
        let around = mem::replace(&mut self.here, inner);
        self.outer.push(around)?;
        self.mode = Mode::WantsPart;
        Ok(())
    }

    /// The variable of a quantifier.
    fn take_variable(&mut self, quantifier: Quantifier, token: Token) -> Result<(), Refusal>
        ensures value { Leaves self.new result (take_variable_of quantifier self.old.here self.old.outer token) }
    {
        match token {
            Token::Identifier(word) => {
                if !is_variable(&word) {
                    return Err(Refusal::Unexpected);
                }
                self.here
                    .prefixes
                    .push(Prefix::Quantified(quantifier, word))?;
                self.mode = Mode::WantsPart;
                Ok(())
            }
            _ => Err(Refusal::Unexpected),
        }
    }

    /// A parenthesis behind a predicate begins its arguments. Before anything else the predicate is a sentence letter.
    fn after_predicate(
        &mut self,
        alloc: Global,
        predicate: Ident,
        token: Token,
    ) -> Result<(), Refusal>
        ensures value { Leaves self.new result (after_predicate_of predicate self.old.here self.old.outer token) }
    {
        match token {
            Token::Open => {
                self.mode = Mode::WantsTerm(
                    Spot::Argument(predicate, Listed::new(alloc)),
                    Stack::new(alloc),
                );
                Ok(())
            }
            other => {
                let letter = Sent::Atom(predicate, Listed::new(alloc));
                let part = wrapped(alloc, &mut self.here.prefixes, letter)?;
                self.after_part(alloc, part, other)
            }
        }
    }

    /// The first word of a term.
    fn take_term(&mut self, spot: Spot, calls: Stack<Call>, token: Token) -> Result<(), Refusal>
        ensures value { Leaves self.new result (take_term_of spot calls self.old.here self.old.outer token) }
    {
        match token {
            Token::Identifier(word) => match word_of(word) {
                None => Err(Refusal::Unexpected),
                Some(term) => {
                    self.mode = Mode::HasTerm(spot, calls, term);
                    Ok(())
                }
            },
            _ => Err(Refusal::Unexpected),
        }
    }

    /// A parenthesis behind a name begins a function's arguments. Before anything else the term is complete.
    fn after_term(
        &mut self,
        alloc: Global,
        spot: Spot,
        calls: Stack<Call>,
        term: Read,
        token: Token,
    ) -> Result<(), Refusal>
        ensures value { Leaves self.new result (after_term_of spot calls term self.old.here self.old.outer token) }
    {
        match (term, token) {
            (Read::Symbol(symbol), Token::Open) => self.open_call(alloc, symbol, spot, calls),
            (other, token) => self.behind_term(alloc, spot, calls, read_term(other), token),
        }
    }

    /// A function's parenthesis, where one more may be pending.
    fn open_call(
        &mut self,
        alloc: Global,
        symbol: Ident,
        spot: Spot,
        mut calls: Stack<Call>,
    ) -> Result<(), Refusal>
        ensures value { Leaves self.new result (open_call_of symbol spot calls self.old.here self.old.outer) }
    {
        need_room_for(&self.here, calls.len())?;
        calls.push(Call {
            symbol,
            arguments: Listed::new(alloc),
        })?;
        self.mode = Mode::WantsTerm(spot, calls);
        Ok(())
    }

    /// Behind a term stands what belongs to the function that it is in, or to its spot.
    fn behind_term(
        &mut self,
        alloc: Global,
        spot: Spot,
        mut calls: Stack<Call>,
        term: Term,
        token: Token,
    ) -> Result<(), Refusal>
        ensures value { Leaves self.new result (behind_term_of spot calls term self.old.here self.old.outer token) }
    {
        match calls.pop() {
            None => self.at_spot(alloc, spot, term, token),
            Some(call) => self.in_call(spot, call, calls, term, token),
        }
    }

    /// A comma or the closing parenthesis of a function.
    fn in_call(
        &mut self,
        spot: Spot,
        call: Call,
        mut calls: Stack<Call>,
        term: Term,
        token: Token,
    ) -> Result<(), Refusal>
        ensures value { Leaves self.new result (in_call_of spot call.symbol call.arguments calls term self.old.here self.old.outer token) }
    {
        let Call {
            symbol,
            mut arguments,
        } = call;
        match token {
            Token::Comma => {
                arguments.add(term)?;
                calls.push(Call { symbol, arguments })?;
                self.mode = Mode::WantsTerm(spot, calls);
                Ok(())
            }
            Token::Close => {
                arguments.add(term)?;
                let whole = Term::App(symbol, Nonempty::of(arguments));
                self.mode = Mode::HasTerm(spot, calls, Read::Function(whole));
                Ok(())
            }
            _ => Err(Refusal::Unexpected),
        }
    }

    /// Behind a term that stands in no function.
    fn at_spot(
        &mut self,
        alloc: Global,
        spot: Spot,
        term: Term,
        token: Token,
    ) -> Result<(), Refusal>
        ensures value { Leaves self.new result (at_spot_of spot term self.old.here self.old.outer token) }
    {
        match spot {
            Spot::Argument(predicate, mut terms) => {
                terms.add(term)?;
                self.after_argument(alloc, predicate, terms, token)
            }
            Spot::Left => self.after_left(alloc, term, token),
            Spot::Right(left, relation) => {
                let equation = related(alloc, left, relation, term)?;
                self.after_right(alloc, equation, token)
            }
        }
    }

    /// A comma or the closing parenthesis of an atomic sentence.
    fn after_argument(
        &mut self,
        alloc: Global,
        predicate: Ident,
        terms: Terms,
        token: Token,
    ) -> Result<(), Refusal>
        ensures value { Leaves self.new result (after_argument_of predicate terms self.old.here self.old.outer token) }
    {
        match token {
            Token::Comma => {
                self.mode = Mode::WantsTerm(Spot::Argument(predicate, terms), Stack::new(alloc));
                Ok(())
            }
            Token::Close => self.finish(alloc, Sent::Atom(predicate, terms)),
            _ => Err(Refusal::Unexpected),
        }
    }

    /// The sign of an equation or of a denied one.
    fn after_left(&mut self, alloc: Global, left: Term, token: Token) -> Result<(), Refusal>
        ensures value { Leaves self.new result (after_left_of left self.old.here self.old.outer token) }
    {
        match token {
            Token::Equals => {
                self.mode = Mode::WantsTerm(Spot::Right(left, Relation::Same), Stack::new(alloc));
                Ok(())
            }
            Token::Unequal => {
                self.mode = Mode::WantsTerm(
                    Spot::Right(left, Relation::Different),
                    Stack::new(alloc),
                );
                Ok(())
            }
            _ => Err(Refusal::Unexpected),
        }
    }

    /// Behind the right term the equation is a part.
    fn after_right(&mut self, alloc: Global, equation: Sent, token: Token) -> Result<(), Refusal>
        ensures value { Leaves self.new result (after_right_of equation self.old.here self.old.outer token) }
    {
        let part = wrapped(alloc, &mut self.here.prefixes, equation)?;
        self.after_part(alloc, part, token)
    }

    /// A part is complete, and with it all its prefixes.
    fn finish(&mut self, alloc: Global, part: Sent) -> Result<(), Refusal>
        ensures value { Leaves self.new result (Ok (finished_of part self.old.here self.old.outer)) }
    {
        let whole = wrapped(alloc, &mut self.here.prefixes, part)?;
        self.mode = Mode::HasPart(whole);
        Ok(())
    }

    /// A connective, or the end of the group.
    fn after_part(&mut self, alloc: Global, part: Sent, token: Token) -> Result<(), Refusal>
        ensures value { Leaves self.new result (after_part_of part self.old.here self.old.outer token) }
    {
        match token {
            Token::Close => self.close_group(alloc, part),
            sign => {
                self.here.begun.go_on(alloc, part, sign)?;
                self.mode = Mode::WantsPart;
                Ok(())
            }
        }
    }

    /// The group's sentence becomes a part of the group around it.
    fn close_group(&mut self, alloc: Global, part: Sent) -> Result<(), Refusal>
        ensures value { Leaves self.new result (close_group_of part self.old.here self.old.outer) }
    {
        match self.outer.pop() {
            None => Err(Refusal::Unexpected),
            Some(around) => {
                let closed = mem::replace(&mut self.here, around);
                let sentence = whole(alloc, closed.begun, part)?;
                self.finish(alloc, sentence)
            }
        }
    }

    /// The sentence, where the text ends here.
    pub(crate) fn ended(self, alloc: Global) -> Result<Sent, Refusal>
        ensures value { Gives result (ended_of self) }
    {
        let State {
            mode,
            here,
            mut outer,
        } = self;
        match outer.pop() {
            None => ended_outermost(alloc, mode, here),
            Some(_) => Err(Refusal::Unexpected),
        }
    }
}

/// The sentence, where the text ends outside all groups.
fn ended_outermost(alloc: Global, mode: Mode, here: Group) -> Result<Sent, Refusal>
    ensures value { Gives result (ended_in_of mode here []) }
{
    match mode {
        Mode::HasPart(part) => whole(alloc, here.begun, part),
        Mode::HasPredicate(predicate) => whole_with(
            alloc,
            Sent::Atom(predicate, Listed::new(alloc)),
            here,
        ),
        Mode::HasTerm(spot, calls, term) => ended_term(alloc, spot, calls, read_term(term), here),
        _ => Err(Refusal::Unexpected),
    }
}

/// The sentence, where the text ends behind a term.
fn ended_term(
    alloc: Global,
    spot: Spot,
    mut calls: Stack<Call>,
    term: Term,
    here: Group,
) -> Result<Sent, Refusal>
    ensures value { Gives result (ended_term_of spot calls term here) }
{
    match spot {
        Spot::Right(left, relation) => match calls.pop() {
            Some(_) => Err(Refusal::Unexpected),
            None => {
                let equation = related(alloc, left, relation, term)?;
                whole_with(alloc, equation, here)
            }
        },
        _ => Err(Refusal::Unexpected),
    }
}

/// The equation of two terms, or its negation.
fn related(alloc: Global, left: Term, relation: Relation, right: Term) -> Result<Sent, Refusal>
    ensures value { Gives result (Ok (related_of left relation right)) }
{
    let equation = Sent::Eq(left, right);
    match relation {
        Relation::Same => Ok(equation),
        Relation::Different => Ok(Sent::Not(Boxed::new(alloc, equation)?)),
    }
}

/// The sentence of a group whose last part is this one behind its prefixes.
fn whole_with(alloc: Global, last: Sent, here: Group) -> Result<Sent, Refusal>
    ensures value { Gives result (Ok (whole_of here.begun (wrapped_of here.prefixes last))) }
{
    let Group {
        room: _,
        mut prefixes,
        begun,
    } = here;
    let part = wrapped(alloc, &mut prefixes, last)?;
    whole(alloc, begun, part)
}

/// Refuses where nothing more may be pending beside so many functions.
fn need_room_for(here: &Group, calls: usize) -> Result<(), Refusal>
    ensures value { result ≡ (if nat_lt (length here.now.prefixes + calls) here.now.room then Ok tt else Err Refusal.TooDeep) }
{
    if here.prefixes.len() < here.room && calls < here.room - here.prefixes.len() {
        return Ok(());
    }
    Err(Refusal::TooDeep)
}

/// Refuses where nothing more may be pending.
fn need_room(here: &Group) -> Result<(), Refusal>
    ensures value { result ≡ (if nat_lt (length here.now.prefixes) here.now.room then Ok tt else Err Refusal.TooDeep) }
    ensures enough { result ≡ Ok tt → length here.now.prefixes < here.now.room }
{
    if here.prefixes.len() < here.room {
        return Ok(());
    }
    Err(Refusal::TooDeep)
}
