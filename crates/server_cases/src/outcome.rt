use page::{Fault, Page};
use std::fmt;

// An answer as a person reads it: a get's is the page's first and last byte.
#[derive(Clone, Copy)]
pub enum Outcome {
    Done,
    Page(u8, u8),
    Is(bool),
    Refused(Fault),
}

impl Outcome {
    pub fn of_call(answer: Result<(), Fault>) -> Outcome {
        match answer {
            Ok(()) => Outcome::Done,
            Err(fault) => Outcome::Refused(fault),
        }
    }

    // A get that left this page in its buffer.
    pub fn of_get(answer: Result<(), Fault>, page: &Page) -> Outcome {
        match answer {
            Ok(()) => Outcome::Page(page.0[0], page.0[511]),
            Err(fault) => Outcome::Refused(fault),
        }
    }
}

impl fmt::Display for Outcome {
    fn fmt<W: fmt::Write>(&self, f: &mut fmt::Formatter<W>) -> fmt::Result {
        match *self {
            Outcome::Done => f.write_str("done"),
            Outcome::Page(first, last) => write!(f, "page {first}..{last}"),
            Outcome::Is(fact) => fact.fmt(f),
            Outcome::Refused(fault) => fault.fmt(f),
        }
    }
}

// What was called or asked, and its answer.
pub type Told = (&'static str, Outcome);

// A line of them.
#[derive(Clone, Copy)]
pub struct Line<'a>(pub &'a [Told]);

impl fmt::Display for Line<'_> {
    fn fmt<W: fmt::Write>(&self, f: &mut fmt::Formatter<W>) -> fmt::Result {
        let mut separator = "";
        for (call, answer) in self.0 {
            write!(f, "{separator}{call} {answer}")?;
            separator = "; ";
        }
        Ok(())
    }
}

pub fn tell(rt: &HostRuntime, answers: &[Told]) -> anyhow::Result<()> {
    rt.println(Line(answers))?;
    Ok(())
}

// What a server answered before it fell, while it was down, and once back was called.
#[derive(Clone, Copy)]
pub struct Life {
    pub put: Outcome,
    pub got: Outcome,
    pub down: Outcome,
    pub free: Outcome,
    pub back: Outcome,
    pub after: Outcome,
}

impl fmt::Display for Life {
    fn fmt<W: fmt::Write>(&self, f: &mut fmt::Formatter<W>) -> fmt::Result {
        let Life {
            put,
            got,
            down,
            free,
            back,
            after,
        } = *self;
        write!(
            f,
            "put {put}; get {got}; fell: get {down}; free {free}; back {back}; get {after}"
        )
    }
}
