//! Tries pages whose answers are known.
#![tactic(auto)]

ghost use Rattle.std.specs.Prelude.{◌≡◌};
ghost use Rattle.dom.specs.Reading.{entries, counted};
ghost use Rattle.replay.specs.Built.{answered};

use build::build;
use case::{Answer, Case, Refused, Told};
use cases::tables;
use page::check::check;
use texts::QUESTIONS;

mod build;
mod case;
mod cases;
mod texts;

fn answer_to(page: &[u8]) -> Answer
    ensures { result ≡ answered (counted 0 (entries page.now)) }
{
    check(page).map_err(Refused::from)
}

/// Tries a case, prints its line, and says whether the answer is right.
fn passes(rt: &HostRuntime, case: &Case) -> anyhow::Result<bool> {
    let Case(name, pieces, expected) = *case;
    let page = build(rt.alloc(), pieces)?;
    let got = answer_to(page.as_slice());
    let right = got == expected;
    if right {
        println!(rt; "{name} ok")?;
    } else {
        println!(rt;
            "{name} WRONG: got {} expected {}",
            Told(got),
            Told(expected)
        )?;
    }
    Ok(right)
}

/// How many cases were tried, and how many answers were wrong.
#[derive(Clone, Copy, Default)]
struct Tally {
    cases: usize,
    wrong: usize,
}

impl Tally {
    fn count(&mut self, right: bool) {
        self.cases = self.cases.saturating_add(1);
        if !right {
            self.wrong = self.wrong.saturating_add(1);
        }
    }
}

/// Questions about texts have no names: a wrong answer is told by its place in the table.
fn try_texts(rt: &HostRuntime, tally: &mut Tally) -> anyhow::Result<()> {
    for (at, question) in QUESTIONS.iter().enumerate() {
        let right = question.is_right();
        if !right {
            println!(rt; "text {at} WRONG")?;
        }
        tally.count(right);
    }
    Ok(())
}

fn run(rt: &HostRuntime) -> anyhow::Result<()> {
    let mut tally = Tally::default();
    for case in tables().into_iter().flatten() {
        tally.count(passes(rt, case)?);
    }
    try_texts(rt, &mut tally)?;
    let Tally { cases, wrong } = tally;
    println!(rt; "{cases} cases, {wrong} wrong")?;
    Ok(())
}

fn main(rt: HostRuntime) -> anyhow::Result<()> {
    run(&rt)
}
