//! An operator in a box.

use crate::{Answer, Operator, Question};

/// He answers as the one in the box.
impl Operator for Box<dyn Operator> {
    ghost answering = { λ boxed. (Operator-box boxed).answering boxed.value };

    fn answer(&mut self, question: &Question) -> Answer {
        (**self).answer(question)
    }
}
