// Tells the journal that comes on standard input in sentences: with the argument -n each with the call's index, its
// caller and who runs then.
#![tactic(auto)]

use forms::Form;
use std::env::{Env, FillError};

// Whether there is an argument of this number; the program's name has 0.
fn has(rt: &HostRuntime, i: usize) -> bool {
    let mut word = [0u8; 2];
    !matches!(rt.arg(i, &mut word), Err(FillError::NotPresent))
}

// Whether the program has the one argument -n.
fn numbered(rt: &HostRuntime) -> bool {
    let mut word = [0u8; 2];
    matches!(rt.arg(1, &mut word), Ok(2)) && word == *b"-n" && !has(rt, 2)
}

// The form that the arguments ask for, if they ask for one.
fn form(rt: &HostRuntime) -> Option<Form> {
    if !has(rt, 1) {
        return Some(Form::Sentences);
    }
    numbered(rt).then_some(Form::Numbered)
}

fn main(rt: HostRuntime) {
    let mut streams = files::standard(&rt);
    let Some(form) = form(&rt) else {
        files::complain(
            &mut streams,
            b"nazsombet: tell takes the argument -n or none\n",
        );
        return;
    };
    stream::run(&mut streams, form);
}
