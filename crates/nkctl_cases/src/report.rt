//! Reports, as far as cases ask them.
//!
//! Layer: tests; private. Called by many modules.
use report_text::Text;
use std::alloc::{AllocError, Global};

// What a report tells of a packet that came in: the policies of which one handles it, its finished histories, and
// whether a copy is on its way.
#[derive(Drop)]
struct ArrivalReport<'a> {
    first: usize,
    second: usize,
    done: Vec<&'a str>,
    open: bool,
}

// The packets of a report, in order.
fn arrivals<'a>(alloc: Global, report: &'a str) -> Result<Vec<ArrivalReport<'a>>, AllocError> {
    let mut all: Vec<ArrivalReport<'a>> = Vec::new(alloc);
    for line in report.lines() {
        if line.starts_with("arrival ") {
            let (first, second) = entry(line);
            all.push(ArrivalReport {
                first,
                second,
                done: Vec::new(alloc),
                open: false,
            })?;
        } else if let Some(told) = all.last_mut() {
            match line.strip_prefix("done ") {
                Some(history) => told.done.push(history)?,
                None => told.open = true,
            }
        }
    }
    Ok(all)
}

// The policies of an entry, the same one twice where there is one.
fn entry(line: &str) -> (usize, usize) {
    let Some((_, policies)) = line.split_once(" policy ") else {
        return (0, 0);
    };
    let (first, second) = policies.split_once(" or ").unwrap_or((policies, policies));
    (number(first), number(second))
}

fn number(word: &str) -> usize {
    word.parse::<usize>().unwrap_or(0)
}

impl ArrivalReport<'_> {
    // Whether it is on its way, or has the histories of one policy of its entry; they are listed by policies, from 0.
    fn is_of_one(&self, by_policy: &[Vec<Text>]) -> bool {
        self.open || self.is_of(by_policy, self.first) || self.is_of(by_policy, self.second)
    }

    // Whether it has the histories of this policy.
    fn is_of(&self, by_policy: &[Vec<Text>], policy: usize) -> bool {
        match by_policy.get(policy) {
            None => false,
            Some(wanted) => are_same(&self.done, wanted),
        }
    }
}

// Whether these are the same lines, in order.
fn are_same(done: &[&str], wanted: &[Text]) -> bool {
    done.len() == wanted.len()
        && done
            .iter()
            .zip(wanted.iter())
            .all(|(line, text)| line.as_bytes() == text.as_bytes())
}

/// Whether a line says that the session with a switch was lost.
pub fn tells_of_loss(report: &str) -> bool {
    report.lines().any(|line| line.starts_with("halted switch ") && line.ends_with(" lost"))
}

/// The line that begins so, or nothing.
pub fn line_of<'a>(report: &'a str, word: &str) -> &'a str {
    report
        .lines()
        .find(|line| line.starts_with(word))
        .unwrap_or("")
}

/// Whether each packet that came in, the k-th of them that of some line, has one policy.
pub fn have_one_policy(
    alloc: Global,
    report: &str,
    meanings: &[Vec<Vec<Text>>],
    lines: &[usize],
) -> Result<bool, AllocError> {
    let told = arrivals(alloc, report)?;
    Ok(
        told.iter().enumerate().all(|(place, told)| {
            let line = lines.get(place).copied().unwrap_or(0);
            meanings
                .get(line)
                .is_some_and(|by_policy| told.is_of_one(by_policy))
        }),
    )
}

/// How many lines of a report begin with a word.
pub fn count_of(report: &str, word: &str) -> usize {
    report.lines().filter(|line| line.starts_with(word)).count()
}
