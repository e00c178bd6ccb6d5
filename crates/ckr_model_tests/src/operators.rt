//! Operators, the console, and operators as a word names them.
use ckr_base::{Name8, NoMemory, Volser};
use ckr_console::{
    Answer, Cautious, Console, Operator, Question, Script, Scripted, Standing, are_scripts,
    read_scripts,
};
use std::alloc::Global;
use std::process::Abort;
use std::test::Fail;

fn restart(rt: &impl Abort) -> Question {
    Question::Restart {
        job: 3,
        step: Name8::read(b"S1").expect(rt, "a name"),
        id: None,
    }
}

fn mount(rt: &impl Abort) -> Question {
    Question::Mount {
        volume: Volser::read(b"VOL001").expect(rt, "a serial"),
        unit: 1,
    }
}

/// The one gives his answer to each question; the other holds runs, and mounts volumes.
fn are_asked<S: Operator, C: Operator>(
    standing: &mut S,
    cautious: &mut C,
    rt: &impl Abort,
) -> bool {
    standing.answer(&restart(rt)) == Answer::No
        && standing.answer(&mount(rt)) == Answer::No
        && cautious.answer(&restart(rt)) == Answer::Hold
        && cautious.answer(&mount(rt)) == Answer::Yes
}

/// He gives two answers, and is silent then.
fn is_asked_four_times(scripted: &mut Scripted, rt: &impl Abort) -> bool {
    scripted.answer(&mount(rt)) == Answer::Hold
        && scripted.answer(&restart(rt)) == Answer::Yes
        && scripted.answer(&restart(rt)) == Answer::Silent
        && scripted.answer(&mount(rt)) == Answer::Silent
}

#[test]
fn each_operator_answers_in_his_way(rt: HostRuntime) -> Result<(), Fail> {
    assert!(rt; are_asked(&mut Standing(Answer::No), &mut Cautious, &rt));
    let mut scripted = Scripted::new([Answer::Hold, Answer::Yes].to_vec(rt.alloc())?);
    assert!(rt; is_asked_four_times(&mut scripted, &rt));
    Ok(())
}

#[test]
fn an_operator_is_asked_in_his_box(rt: HostRuntime) -> Result<(), Fail> {
    let mut operator: Box<dyn Operator> = Box::new(rt.alloc(), Cautious)?;
    assert!(rt; operator.answer(&restart(&rt)) == Answer::Hold);
    operator = Box::new(rt.alloc(), Standing(Answer::Yes))?;
    assert!(rt; operator.answer(&restart(&rt)) == Answer::Yes);
    Ok(())
}

/// Two operators take office one after the other. The first has an answer left then, which is gone.
fn are_in_office(
    console: &mut Console<Scripted>,
    first: Scripted,
    second: Scripted,
    rt: &impl Abort,
) -> bool {
    console.shift(first);
    let refused = console.ask(&restart(rt)) == Answer::No;
    console.shift(second);
    refused
        && console.ask(&restart(rt)) == Answer::Yes
        && console.ask(&restart(rt)) == Answer::Silent
}

/// Where nobody is in office, a question stays unanswered. The next operator takes the office of the one before him, whose answers are gone.
#[test]
fn the_operator_in_office_is_asked(rt: HostRuntime) -> Result<(), Fail> {
    let first = Scripted::new([Answer::No, Answer::Hold].to_vec(rt.alloc())?);
    let second = Scripted::new([Answer::Yes].to_vec(rt.alloc())?);
    let mut console = Console::new(None);
    let silent = console.ask(&restart(&rt)) == Answer::Silent
        && console.ask(&mount(&rt)) == Answer::Silent;
    assert!(rt; are_in_office(&mut console, first, second, &rt) && silent);
    Ok(())
}

/// An operator as he is expected.
enum Named {
    Standing,
    Cautious,
    Answers(&'static [Answer]),
}

fn is_named(script: &Script, named: &Named) -> bool {
    match (script, named) {
        (Script::Standing, Named::Standing) | (Script::Cautious, Named::Cautious) => true,
        (Script::Answers(letters), Named::Answers(answers)) => letters.as_slice() == *answers,
        _ => false,
    }
}

/// Words, and the operators that they name.
static NAMED: [(&[u8], &[Named]); 7] = [
    (b"+", &[Named::Standing]),
    (b"*", &[Named::Cautious]),
    (b"Y", &[Named::Answers(&[Answer::Yes])]),
    (
        b"YNH",
        &[Named::Answers(&[Answer::Yes, Answer::No, Answer::Hold])],
    ),
    (
        b"+/*/YH",
        &[
            Named::Standing,
            Named::Cautious,
            Named::Answers(&[Answer::Yes, Answer::Hold]),
        ],
    ),
    (
        b"N/N",
        &[Named::Answers(&[Answer::No]), Named::Answers(&[Answer::No])],
    ),
    (
        b"HHY/+",
        &[
            Named::Answers(&[Answer::Hold, Answer::Hold, Answer::Yes]),
            Named::Standing,
        ],
    ),
];

/// The word names these operators.
fn are_named(alloc: Global, word: &[u8], named: &[Named]) -> Result<bool, NoMemory> {
    Ok(match read_scripts(alloc, word)? {
        Some(scripts) => {
            let scripts = scripts.as_slice();
            scripts.len() == named.len()
                && scripts
                    .iter()
                    .zip(named)
                    .all(|(script, named)| is_named(script, named))
        }
        None => false,
    })
}

#[test]
fn words_name_operators(rt: HostRuntime) -> Result<(), Fail> {
    for (word, named) in &NAMED {
        assert!(rt; are_scripts(word));
        assert!(rt; are_named(rt.alloc(), word, named)?);
    }
    Ok(())
}

/// Words of which a part names no operator.
static UNNAMED: [&[u8]; 10] = [
    b"", b"/", b"Y/", b"/Y", b"Y//N", b"y", b"YX", b"++", b"+Y", b"Y N",
];

#[test]
fn other_words_name_none(rt: HostRuntime) -> Result<(), Fail> {
    for word in &UNNAMED {
        assert!(rt; !are_scripts(word));
        assert!(rt; read_scripts(rt.alloc(), word)?.is_none());
    }
    Ok(())
}
