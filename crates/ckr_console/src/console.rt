//! The console, where the operator in office is asked.
ghost use Rattle.std.specs.Prelude.{◌≡◌, Some};
ghost use Rattle.std.specs.Option.{option_map};
ghost use Rattle.ckr_console.specs.Answering.{answer_in_office, asked};

use crate::{Answer, Operator, Question};
use std::marker::Model;

/// The console of a desk. There is an operator in office, or nobody.
#[derive(Drop)]
pub struct Console<O: Operator> {
    operator: Option<O>,
}

impl<O: Operator> Model for Console<O> {
    ghost use Rattle.std.specs.Prelude.{Option};
    ghost use Rattle.std.specs.Option.{option_map};
    ghost use Rattle.ckr_console.specs.Answering.{Answering};

    ghost Value = { Option Answering };

    ghost view = { λ a. option_map O.answering a.operator };
}

impl<O: Operator> Console<O> {
    /// This operator is in office, or nobody. It takes no memory.
    pub fn new(operator: Option<O>) -> Console<O>
        ensures { result ≡ option_map O.answering operator }
    {
        Console { operator }
    }

    /// The next operator takes office, and the former one is dropped.
    pub fn shift(&mut self, operator: O)
        ensures { self.new ≡ Some (O.answering operator) }
    {
        self.operator = Some(operator);
    }

    /// The answer of the operator in office. Where nobody is, the question stays unanswered.
    pub fn ask(&mut self, question: &Question) -> Answer
        ensures answer { result ≡ answer_in_office question.now self.old }
        ensures behind { self.new ≡ asked self.old }
    {
        match &mut self.operator {
            Some(operator) => operator.answer(question),
            None => Answer::Silent,
        }
    }
}
