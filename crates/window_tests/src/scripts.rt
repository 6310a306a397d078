//! Scripts of calls on a desk. What is known of a call would be carried along through the proof of each test: so
//! helpers without a contract make them.

use calls::Calls;
use cell::Refusal;
use compose::Desk;
use script::{Arguments, LONGEST_LINE, log_answer, read_line};
use std::alloc::Global;
use std::test::Fail;
use streams::Counted;
use world::{Call, Refresh, Reply};

/// Makes any call but `doupdate`, which a desk hasn't.
fn make(desk: &mut Desk, call: &Call<'_>) -> Result<Reply, Refusal> {
    match call {
        Call::Refresh(Refresh::Doupdate) => Ok(Reply::Nothing),
        _ => desk.call(call),
    }
}

/// Makes the call of a line.
fn make_line(desk: &mut Desk, line: &[u8]) -> Result<Result<Reply, Refusal>, Fail> {
    if line.len() > LONGEST_LINE {
        return Err("too long a line".into());
    }
    let mut arguments = Arguments::new();
    match read_line(line, &mut arguments) {
        Ok(Some(word)) => Ok(make(desk, &word.call(&arguments))),
        _ => Err("not a call".into()),
    }
}

/// Makes the calls of a script, and gives its log.
pub(crate) fn run(desk: &mut Desk, alloc: Global, script: &str) -> Result<Vec<u8>, Fail> {
    let mut log = Counted::new(Vec::new(alloc));
    let mut number = 0u64;
    for line in script.lines() {
        number = number.saturating_add(1);
        let answer = make_line(desk, line.as_bytes())?;
        if log_answer(&mut log, number, answer).is_err() {
            return Err("the log failed".into());
        }
    }
    Ok(log.into_inner())
}
