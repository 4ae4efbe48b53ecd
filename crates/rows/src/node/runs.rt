// Answers side by side, of which those that are alike are told once.
use std::alloc::{AllocError, Global};

/// Numbers from the first to the last one, which have this answer.
#[derive(Drop)]
struct Run {
    first: u64,
    last: u64,
    answer: String,
}

/// The answers of numbers, which rise.
#[derive(Drop)]
pub struct Runs {
    all: Vec<Run>,
}

fn add_numbered(out: &mut String, run: &Run) -> Result<(), AllocError> {
    for line in run.answer.lines() {
        if run.first < run.last {
            write!(out, "{} to ", run.first)?;
        }
        writeln!(out, "{}: {line}", run.last)?;
    }
    Ok(())
}

impl Runs {
    /// None yet.
    pub fn new(alloc: Global) -> Runs {
        Runs {
            all: Vec::new(alloc),
        }
    }

    /// The next number has this answer.
    pub fn add(&mut self, number: u64, answer: String) -> Result<(), AllocError> {
        if let Some(run) = self.all.last_mut() {
            if run.answer.as_str() == answer.as_str() {
                run.last = number;
                return Ok(());
            }
        }
        self.all.push(Run {
            first: number,
            last: number,
            answer,
        })?;
        Ok(())
    }

    /// Adds the lines of each answer, behind the numbers that have it.
    pub fn print(&self, out: &mut String) -> Result<(), AllocError> {
        for run in &self.all {
            add_numbered(out, run)?;
        }
        Ok(())
    }

    /// The same, or the lines alone where all have one answer.
    pub fn print_shared(&self, out: &mut String) -> Result<(), AllocError> {
        if self.all.len() == 1 {
            return out.push_str(self.all[0].answer.as_str());
        }
        self.print(out)
    }
}
