//! Policies: places inside a larger text, predicates, and the most values.
//!
//! Layer: tests; private. Its tests are run by `rt test`.
use netkat_parser::{ParseError, Position, parse_policy, parse_policy_at};
use nk_syntax::Pol;
use nk_values::TextFault;
use std::alloc::{AllocError, Global};
use std::test::Fail;

// The fault, the line and the column of a text, or out of memory.
fn refused(answer: Result<Pol, ParseError>) -> Option<(TextFault, u64, u64)> {
    match answer {
        Err(ParseError::Fault(it)) => Some((it.fault, it.line, it.column)),
        _ => None,
    }
}

// A text inside a larger one: the place where it begins, the fault, its line and its column.
const INSIDE: [(&str, u64, u64, TextFault, u64, u64); 3] = [
    ("pt=1 ?", 7, 3, TextFault::BadChar, 7, 8),
    ("pt=1\n ?", 7, 3, TextFault::BadChar, 8, 2),
    ("pt=\n", 7, 1, TextFault::Unexpected, 8, 1),
];

#[test]
fn places(rt: HostRuntime) {
    for (text, line, column, fault, at_line, at_column) in INSIDE {
        assert!(rt; line < 100 && column < 100 && text.len() < 100);
        let place = Position { line, column };
        let found = refused(parse_policy_at(rt.alloc(), text.as_bytes(), place));
        assert_eq!(rt; found, Some((fault, at_line, at_column)), "{text}");
    }
}

// The text of a filter's predicate.
fn filter(alloc: Global, text: &str) -> Result<String, Fail> {
    match parse_policy(alloc, text.as_bytes())? {
        Pol::Filter(pred) => Ok(pred.copy(alloc)?.print(alloc)?),
        _ => Ok(String::new(alloc)),
    }
}

#[test]
fn predicates(rt: HostRuntime) -> Result<(), Fail> {
    let text = "not ((pt=1 + (sw=2; drop)))";
    assert_eq!(rt; filter(rt.alloc(), text)?.as_str(), text);
    Ok(())
}

// 2,000 pairs of field and value, and then this.
fn many_pairs(alloc: Global, last: &str) -> Result<Option<(TextFault, u64, u64)>, AllocError> {
    let mut text = String::new(alloc);
    for n in 1u32..=1000 {
        text.push_str(&format!(in alloc; "sw={n}; sw:={n}; pt:={n} +\n")?)?;
    }
    text.push_str(last)?;
    Ok(refused(parse_policy(alloc, text.as_bytes())))
}

// So many values of ipProto.
fn many_protos(alloc: Global, count: u32) -> Result<Option<(TextFault, u64, u64)>, AllocError> {
    let mut text = String::new(alloc);
    for n in 1..=count {
        text.push_str(&format!(in alloc; "ipProto={n};\n")?)?;
    }
    text.push_str("skip")?;
    Ok(refused(parse_policy(alloc, text.as_bytes())))
}

#[test]
fn limits(rt: HostRuntime) -> Result<(), Fail> {
    let alloc = rt.alloc();
    let too_many = TextFault::TooManyValues;
    assert_eq!(rt; many_pairs(alloc, "sw=1000")?, None);
    assert_eq!(rt;
        many_pairs(alloc, "sw=1 + ethSrc=1")?,
        Some((too_many, 1001, 15))
    );
    assert_eq!(rt; many_protos(alloc, 100)?, None);
    assert_eq!(rt; many_protos(alloc, 101)?, Some((too_many, 101, 9)));
    Ok(())
}
